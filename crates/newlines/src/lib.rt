//! Rewrites a pattern for lines that end with a newline, and for lines that do not.

#![tactic(auto)]

mod newlines;

pub use newlines::{regex_for_newlines, regex_for_no_newlines};
