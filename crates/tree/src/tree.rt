ghost use Rattle.tree_rule.specs.Props.{formed_prop};
ghost use Rattle.tree_rule.specs.Rule.{Formed};

use tree_rule::RawNode;

/// A tree: nodes and text of which the whole rule holds. Only the check makes one.
#[derive(Clone, Copy)]
pub struct Tree<'a> {
    pub(crate) nodes: &'a [RawNode],
    pub(crate) text: &'a [u8],
    ghost formed: { Formed nodes.now text.now } by { formed_prop nodes.now text.now },
}
