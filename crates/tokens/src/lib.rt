//! Reads the text of one regular expression token by token.

#![tactic(auto)]

mod class;
mod parser;
mod posix;

pub use class::class_is_closed;
pub use parser::{Parser, Token, write_token};
pub use posix::replace_posix_char_classes;
