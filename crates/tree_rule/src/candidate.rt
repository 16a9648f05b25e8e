ghost use Rattle.std.specs.Prelude.{◌≡◌, ◌<◌, length, Decides, IsUtf8, MatchResult};
ghost use Rattle.tree_rule.specs.Nodes.{at};
ghost use Rattle.tree_rule.specs.Refusals.{Breaks, Each, Refuses, Sized};
ghost use Rattle.tree_rule.specs.Rule.{Right, Truth};

use crate::node::{Kind, MAX_NODES, MAX_TEXT, RawNode};
use crate::refusal::{Fault, Refusal};
use crate::sound::Sound;

/// Nodes and text that nobody vouches for.
#[derive(Clone, Copy)]
pub(crate) struct Candidate<'a> {
    pub(crate) nodes: &'a [RawNode],
    pub(crate) text: &'a [u8],
}

/// A boolean is 0 or 1.
fn is_truth(node: RawNode) -> bool
    ensures { Decides result (Truth node) }
{
    !node.is(Kind::Boolean) || node.number == 0 || node.number == 1
}

/// The bytes of a string are UTF-8.
fn is_spelled(bytes: &[u8]) -> bool
    ensures { Decides result (IsUtf8 bytes.now) }
{
    std::str::from_utf8(bytes).is_ok()
}

impl<'a> Candidate<'a> {
    /// There are as many nodes and bytes as a tree may have, and node 0 holds all the others.
    fn check_sizes(&self) -> Result<(), Refusal>
        ensures { MatchResult result (λ _. Sized self.now.nodes.now self.now.text.now) (Refuses self.now.nodes.now self.now.text.now) }
    {
        let count = self.nodes.len();
        let root = self.nodes.first().ok_or(Refusal::NodeCount)?;
        if count > MAX_NODES {
            return Err(Refusal::NodeCount);
        }
        if self.text.len() > MAX_TEXT {
            return Err(Refusal::TextLength);
        }
        if root.end as usize != count {
            return Err(Refusal::Root);
        }
        Ok(())
    }

    /// The node's own numbers are right.
    fn check_node(&self, i: usize, node: RawNode) -> Result<(), Fault>
        requires { node ≡ at self.now.nodes.now i }
        ensures { MatchResult result (λ _. Right self.now.nodes.now self.now.text.now i) (Breaks self.now.nodes.now self.now.text.now i) }
    {
        let kind = Kind::try_from(node.kind)?;
        if !is_truth(node) {
            return Err(Fault::BadBoolean);
        }
        let end = node.end as usize;
        if end <= i || end > self.nodes.len() {
            return Err(Fault::BadEnd);
        }
        if !matches!(kind, Kind::List | Kind::Map) && end != i + 1 {
            return Err(Fault::LeafHolds);
        }
        if kind == Kind::String {
            let bytes = node.bytes(self.text).ok_or(Fault::OutsideText)?;
            if !is_spelled(bytes) {
                return Err(Fault::NotUtf8);
            }
        }
        Ok(())
    }

    /// Each node's own numbers are right.
    fn check_nodes(&self) -> Result<(), Refusal>
        requires { Sized self.now.nodes.now self.now.text.now }
        ensures { MatchResult result (λ _. Each self.now.nodes.now (Right self.now.nodes.now self.now.text.now)) (Refuses self.now.nodes.now self.now.text.now) }
    {
        for (i, node) in self.nodes.iter().enumerate() {
            self.check_node(i, *node)
                .map_err(|fault| Refusal::Node { node: i, fault })?;
        }
        Ok(())
    }

    /// These nodes and this text, if their sizes and each node's own numbers are right.
    pub(crate) fn sound(&self) -> Result<Sound<'a>, Refusal>
        ensures { MatchResult result (λ sound. (sound.nodes ≡ self.now.nodes) × (sound.text ≡ self.now.text)) (Refuses self.now.nodes.now self.now.text.now) }
    {
        self.check_sizes()?;
        self.check_nodes()?;
        Ok(Sound {
            nodes: self.nodes,
            text: self.text,
        })
    }
}
