//! What a grammar is, as a value that depends on no set (`specs/`), and the plain data that it is made of.

#![tactic(auto)]

mod refusal;
mod syntax_definition;

pub use refusal::{Key, Refusal};
pub use syntax_definition::ClearAmount;
