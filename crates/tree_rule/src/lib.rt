//! The rule of a tree: what nodes and text have to be, decided for nodes and text that nobody vouches for.

#![tactic(auto)]

mod candidate;
mod children;
mod keys;
mod node;
mod refusal;
mod sound;
mod wellformed;
mod whole;
mod workspace;

pub use children::{Children, Entries};
pub use node::{Kind, MAX_DEPTH, MAX_NODES, MAX_TEXT, RawNode, UnknownKind};
pub use refusal::{Fault, Refusal};
pub use wellformed::judge;
pub use workspace::Workspace;
