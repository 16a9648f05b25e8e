ghost use Rattle.std.specs.Prelude.{Some};
ghost use Rattle.tree.specs.Words.{unanswered_words};

use std::error::Error;
use std::fmt;

/// Why a question about a node has no answer.
#[derive(Clone, Copy, PartialEq, Eq, Debug)]
pub enum Unanswered {
    /// the tree has no node of this number
    NoSuchNode,
    /// nodes of this kind do not answer this question
    OtherKind,
}

impl fmt::Display for Unanswered {
    ghost output = { λ unanswered. Some (unanswered_words unanswered) };

    fn fmt<W: fmt::Write>(&self, f: &mut fmt::Formatter<W>) -> fmt::Result {
        f.write_str(match self {
            Unanswered::NoSuchNode => "the tree has no node of this number",
            Unanswered::OtherKind => "nodes of this kind do not answer this question",
        })
    }
}

impl Error for Unanswered {}
