ghost use Rattle.std.specs.Prelude.{IfOk};
ghost use Rattle.tree.specs.Checked.{Checked};
ghost use Rattle.tree.specs.Meaning.{Complete, Means};

use crate::tree::Tree;
use tree_rule::{RawNode, Refusal, Workspace, judge};

/// The tree that nodes and text are, if the rule holds of them; else why it does not. Only the workspace is written.
pub fn check<'a>(
    nodes: &'a [RawNode],
    text: &'a [u8],
    work: &mut Workspace,
) -> Result<Tree<'a>, Refusal>
    ensures answer { Checked nodes.now text.now result }
    ensures meaning { IfOk result (λ tree. Means tree.nodes.now tree.text.now) }
    ensures complete { Complete }
{
    judge(nodes, text, work)?;
    Ok(Tree { nodes, text })
}
