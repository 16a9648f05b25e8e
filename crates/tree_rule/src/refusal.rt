ghost use Rattle.std.specs.Prelude.{◌≡◌, Some};
ghost use Rattle.tree_rule.specs.declared.refusal.Fault.TheVariants as fault;
ghost use Rattle.tree_rule.specs.Words.{fault_words, refusal_words};

use crate::node::UnknownKind;
use std::error::Error;
use std::fmt;

/// Why nodes and text are no tree. Of several reasons the first in this order is given, at the first node that it holds of.
#[derive(Clone, Copy, PartialEq, Eq, Debug)]
pub enum Refusal {
    /// no node, or too many
    NodeCount,
    /// too many bytes of text
    TextLength,
    /// node 0 does not end behind the last node
    Root,
    /// a node's own numbers are wrong
    Node { node: usize, fault: Fault },
    /// a node's children do not fill it exactly: one of them ends behind it
    Overrun { node: usize },
    /// a map's last key has no value
    Unpaired { node: usize },
    /// nodes nest too deep
    TooDeep,
    /// a map has two equal string keys or two equal integer keys
    EqualKeys { node: usize },
}

/// What is wrong with a node's own numbers. Of several faults the first in this order is given.
#[derive(Clone, Copy, PartialEq, Eq, Debug)]
pub enum Fault {
    UnknownKind,
    /// a boolean that is neither 0 nor 1
    BadBoolean,
    /// it does not end behind itself, or ends behind the last node
    BadEnd,
    /// it holds nodes and is neither a list nor a map
    LeafHolds,
    /// a string that does not lie in the text
    OutsideText,
    NotUtf8,
}

impl fmt::Display for Refusal {
    ghost output = { λ refusal. Some (refusal_words refusal) };

    fn fmt<W: fmt::Write>(&self, f: &mut fmt::Formatter<W>) -> fmt::Result {
        match self {
            Refusal::NodeCount => f.write_str("there are no nodes, or too many"),
            Refusal::TextLength => f.write_str("the text is too long"),
            Refusal::Root => f.write_str("node 0 does not end behind the last node"),
            Refusal::Node { fault, .. } => fault.fmt(f),
            Refusal::Overrun { .. } => f.write_str("children do not fill their node"),
            Refusal::Unpaired { .. } => f.write_str("a key of a map has no value"),
            Refusal::TooDeep => f.write_str("nodes nest more than 64 deep"),
            Refusal::EqualKeys { .. } => f.write_str("two keys of a map are equal"),
        }
    }
}

impl Error for Refusal {}

impl fmt::Display for Fault {
    ghost output = { λ fault. Some (fault_words fault) };

    fn fmt<W: fmt::Write>(&self, f: &mut fmt::Formatter<W>) -> fmt::Result {
        f.write_str(match self {
            Fault::UnknownKind => "a node has no known kind",
            Fault::BadBoolean => "a boolean is neither 0 nor 1",
            Fault::BadEnd => "a node does not end behind itself, or ends behind the last",
            Fault::LeafHolds => "a node that is neither a list nor a map holds nodes",
            Fault::OutsideText => "a string does not lie in the text",
            Fault::NotUtf8 => "a string is not UTF-8",
        })
    }
}

impl Error for Fault {}

impl From<UnknownKind> for Fault {
    ghost from_gives = { λ _ e. e ≡ fault.UnknownKind };

    fn from(_unknown: UnknownKind) -> Fault {
        Self::UnknownKind
    }
}
