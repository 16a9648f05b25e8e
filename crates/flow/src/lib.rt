//! Reads documents in the flow form of YAML into nodes and text.

#![tactic(auto)]

mod arrays;
mod content;
mod cursor;
mod depth;
mod misread;
mod reader;
mod scalars;

pub use arrays::Arrays;
pub use misread::{Misread, Reason};
