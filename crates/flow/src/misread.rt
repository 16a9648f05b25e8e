ghost use Rattle.std.specs.Prelude.{Some};
ghost use Rattle.flow.specs.Reasons.{words_of};

use std::error::Error;
use std::fmt;

/// Where and why a document cannot be read.
#[derive(Clone, Copy, PartialEq, Eq, Debug)]
pub struct Misread {
    /// how many bytes come before
    pub place: usize,
    pub reason: Reason,
}

#[derive(Clone, Copy, PartialEq, Eq, Debug)]
pub enum Reason {
    /// a value is wanted here
    NoValue,
    /// a key is wanted here: a string or an integer
    NoKey,
    /// a colon is wanted here
    NoColon,
    /// a comma or the end of a list or map is wanted here
    NoComma,
    /// the document has ended, and something follows
    Trailing,
    /// the document ends too early
    Unfinished,
    /// a string has no closing quote
    OpenString,
    /// a backslash that begins no escape
    BadEscape,
    /// a control character in a string, which has to be escaped
    Control,
    /// an integer that does not fit 64 bits, or is none
    BadNumber,
    TooDeep,
    TooManyNodes,
    TooMuchText,
    NoMemory,
}

impl fmt::Display for Reason {
    ghost output = { λ reason. Some (words_of reason) };

    fn fmt<W: fmt::Write>(&self, f: &mut fmt::Formatter<W>) -> fmt::Result {
        f.write_str(match self {
            Reason::NoValue => "a value is wanted here",
            Reason::NoKey => "a key is wanted here: a string or an integer",
            Reason::NoColon => "a colon is wanted here",
            Reason::NoComma => "a comma or the end of the list or map is wanted here",
            Reason::Trailing => "the document has ended, and this follows",
            Reason::Unfinished => "the document ends too early",
            Reason::OpenString => "the string has no closing quote",
            Reason::BadEscape => "this backslash begins no escape",
            Reason::Control => "a control character has to be escaped",
            Reason::BadNumber => "this is no integer of 64 bits",
            Reason::TooDeep => "lists and maps nest too deep",
            Reason::TooManyNodes => "there are too many nodes",
            Reason::TooMuchText => "the strings have too many bytes",
            Reason::NoMemory => "there is no memory left",
        })
    }
}

impl Error for Reason {}
