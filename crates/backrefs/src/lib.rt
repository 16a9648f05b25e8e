//! Finds the backreferences of a pattern, and puts texts in their place.

#![tactic(auto)]

mod backrefs;
mod parts;
mod span;

pub use backrefs::{Placeholders, Substituter, has_backrefs, substitute_backrefs_in_regex};
pub use parts::{MatchedParts, OutsideLine};
pub use span::Span;
