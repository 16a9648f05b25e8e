ghost use Rattle.std.specs.Prelude.{◌≡◌, ℕ, ◌<◌, true, false, length, None, Some, MatchResult, option_map, slice_index_or};
ghost use Rattle.backrefs.specs.Backrefs.{literally};
ghost use Rattle.backrefs.specs.Parts.{AllInside, inside, outside_text, part_of};

use crate::backrefs::{Substituter, write_literally};
use crate::span::Span;
use buffer::{Buffer, TooLong};
use std::error::Error;
use std::fmt;

/// The parts of a matched line, by the numbers of the groups that they matched.
#[derive(Clone, Copy)]
pub struct MatchedParts<'a> {
    line: &'a [u8],
    parts: &'a [Option<Span>],
    ghost all_inside: { AllInside line.now parts.now },
}

/// The number of a part that does not lie in its line.
#[derive(Clone, Copy, PartialEq, Eq, Debug)]
pub struct OutsideLine {
    pub part: usize,
}

impl fmt::Display for OutsideLine {
    ghost output = { λ outside. Some (outside_text outside) };

    fn fmt<W: fmt::Write>(&self, f: &mut fmt::Formatter<W>) -> fmt::Result {
        let part = self.part;
        write!(f, "part {part} does not lie in the line")
    }
}

impl Error for OutsideLine {}

/// A part, if there is one, lies in a line of `len` bytes.
fn is_inside(part: Option<Span>, len: usize) -> bool
    ensures { result ≡ inside len part }
{
    part.is_none_or(|span| span.start <= span.end && span.end <= len)
}

impl<'a> MatchedParts<'a> {
    /// Refuses the first part that does not lie in the line.
    pub fn new(line: &'a [u8], parts: &'a [Option<Span>]) -> Result<Self, OutsideLine>
        ensures { MatchResult result
            (λ m. (m.line.now ≡ line.now) × (m.parts.now ≡ parts.now) × AllInside line.now parts.now)
            (λ e. (e.part < length parts.now)
            × (inside (length line.now) (slice_index_or parts.now e.part None) ≡ false)
            × ((k : ℕ) → k < e.part → inside (length line.now) (slice_index_or parts.now k None) ≡ true)) }
    {
        match parts.iter().position(|part| !is_inside(*part, line.len())) {
            Some(part) => Err(OutsideLine { part }),
            None => Ok(MatchedParts { line, parts }),
        }
    }

    /// The bytes of a part.
    fn text(&self, number: usize) -> Option<&'a [u8]>
        ensures { option_map (λ text. literally text.now) result ≡ part_of self.now.line.now self.now.parts.now number }
    {
        let span = (*self.parts.get(number)?)?;
        Some(&self.line[span.start..span.end])
    }
}

impl Substituter for MatchedParts<'_> {
    ghost part = { λ m. part_of m.line.now m.parts.now };

    fn substitute(&self, digit: u8, out: &mut Buffer<u8>) -> Result<(), TooLong> {
        write_literally(self.text(digit as usize).unwrap_or(b""), out)
    }
}
