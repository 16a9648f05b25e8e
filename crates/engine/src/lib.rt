//! What a regular-expression engine is, and the engine that looks at brackets.

#![tactic(auto)]

mod bracket;
mod engine;

pub use bracket::{BracketEngine, BracketFault, check_brackets};
pub use engine::{Engine, Numbered};
