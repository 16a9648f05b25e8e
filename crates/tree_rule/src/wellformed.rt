ghost use Rattle.std.specs.Prelude.{MatchResult};
ghost use Rattle.tree_rule.specs.Refusals.{Refuses};
ghost use Rattle.tree_rule.specs.Rule.{Formed};

use crate::candidate::Candidate;
use crate::node::RawNode;
use crate::refusal::Refusal;
use crate::workspace::Workspace;

/// Whether nodes and text are a tree, else why not. Only the workspace is written.
pub fn judge(nodes: &[RawNode], text: &[u8], work: &mut Workspace) -> Result<(), Refusal>
    ensures { MatchResult result (λ _. Formed nodes.now text.now) (Refuses nodes.now text.now) }
{
    let whole = Candidate { nodes, text }.sound()?.whole()?;
    whole.check_nesting()?;
    whole.check_keys(work)
}
