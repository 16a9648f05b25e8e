ghost use Rattle.std.specs.Prelude.{◌≡◌, ◌+◌, ◌<◌, ◌%◌, length, Decides, MatchResult};
ghost use Rattle.tree_rule.specs.Nodes.{at};
ghost use Rattle.tree_rule.specs.Props.{each_right_prop, sized_prop};
ghost use Rattle.tree_rule.specs.Refusals.{Each, Holds, Refuses, Sized};
ghost use Rattle.tree_rule.specs.Rule.{Filled, Nests, Paired, Right};

use crate::children::Children;
use crate::node::{Kind, RawNode};
use crate::refusal::Refusal;
use crate::whole::Whole;

/// Nodes and text of which the sizes and each node's own numbers are right: a walk over children stays among the nodes, and ends.
#[derive(Clone, Copy)]
pub(crate) struct Sound<'a> {
    pub(crate) nodes: &'a [RawNode],
    pub(crate) text: &'a [u8],
    ghost sized: { Sized nodes.now text.now } by { sized_prop nodes.now text.now },
    ghost right: { Each nodes.now (Right nodes.now text.now) } by { each_right_prop nodes.now text.now },
}

// A node's number stays an index whose bound is asked for: a type for it would have to hold the nodes once more.
impl<'a> Sound<'a> {
    /// The children of node `i`.
    pub(crate) fn children(&self, i: usize) -> Children<'a>
        requires { i < length self.now.nodes.now }
        ensures { (result.nodes ≡ self.now.nodes) × (result.next ≡ i + 1) × (result.end ≡ (at self.now.nodes.now i).end) }
    {
        Children {
            nodes: self.nodes,
            next: i + 1,
            end: self.nodes[i].end as usize,
        }
    }

    /// The children fill node `i` exactly.
    fn is_filled(&self, i: usize) -> bool
        requires { i < length self.now.nodes.now }
        ensures { Decides result (Filled self.now.nodes.now i) }
    {
        let end = self.nodes[i].end;
        self.children(i).all(|child| self.nodes[child].end <= end)
    }

    /// A map's children are key and value in turn.
    fn is_paired(&self, i: usize) -> bool
        requires { i < length self.now.nodes.now }
        ensures { Decides result (Paired self.now.nodes.now i) }
    {
        !self.nodes[i].is(Kind::Map) || self.children(i).count() % 2 == 0
    }

    /// Node `i` with all that it holds nests at most `deep` deep.
    pub(crate) fn nests(&self, i: usize, deep: usize) -> bool
        requires { i < length self.now.nodes.now }
        ensures { Decides result (Nests deep self.now.nodes.now i) }
    {
        let Some(below) = deep.checked_sub(1) else {
            return false;
        };
        // A loop, since `all` would want clauses at its closure for the recursion.
        for child in self.children(i) {
            if !self.nests(child, below) {
                return false;
            }
        }
        true
    }

    /// Each node's children fill it, and each map's are key and value in turn.
    fn check_children(&self) -> Result<(), Refusal>
        ensures { MatchResult result (λ _. Each self.now.nodes.now (Holds self.now.nodes.now)) (Refuses self.now.nodes.now self.now.text.now) }
    {
        // By number, since what is asked of a node is about its place among the others.
        for node in 0..self.nodes.len() {
            if !self.is_filled(node) {
                return Err(Refusal::Overrun { node });
            }
            if !self.is_paired(node) {
                return Err(Refusal::Unpaired { node });
            }
        }
        Ok(())
    }

    /// These nodes and this text, if children fill their node, and a map's are key and value in turn.
    pub(crate) fn whole(&self) -> Result<Whole<'a>, Refusal>
        ensures { MatchResult result (λ whole. (whole.sound.nodes ≡ self.now.nodes) × (whole.sound.text ≡ self.now.text)) (Refuses self.now.nodes.now self.now.text.now) }
    {
        self.check_children()?;
        Ok(Whole { sound: *self })
    }
}
