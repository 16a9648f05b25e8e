//! Trees of a YAML reader: from nodes and text that nobody vouches for to a tree that is right by its type.

#![tactic(auto)]

mod checking;
mod questions;
mod tree;
mod unanswered;

pub use checking::check;
pub use tree::Tree;
pub use tree_rule::{
    Fault, Kind, MAX_DEPTH, MAX_NODES, MAX_TEXT, RawNode, Refusal, UnknownKind, Workspace,
};
pub use unanswered::Unanswered;
