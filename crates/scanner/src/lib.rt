//! What a loader and an editor need of the text of one regular expression, in one place.

#![tactic(auto)]

mod rewriter;

pub use backrefs::{
    MatchedParts, OutsideLine, Placeholders, Span, Substituter, has_backrefs,
    substitute_backrefs_in_regex,
};
pub use buffer::{Buffer, LIMIT, Pieces, TooLong};
pub use groups::get_consuming_capture_indexes;
pub use newlines::{regex_for_newlines, regex_for_no_newlines};
pub use rewriter::Rewriter;
pub use tokens::{Parser, Token, replace_posix_char_classes};
