ghost use Rattle.std.specs.Prelude.{◌≡◌, ◌+◌, ◌<◌, ◌≤◌, length, drop, IfOk, IfErr, OnErr, MatchOption, slice_index};
ghost use Rattle.std.specs.List.{prefix_len};
ghost use Rattle.flow.specs.declared.misread.Reason.TheVariants.{Unfinished};
ghost use Rattle.flow.specs.Places.{Told};
ghost use Rattle.flow.specs.Scalars.{is_blank};
ghost use Rattle.flow.specs.Steps.{past_blanks};
ghost use Rattle.flow.specs.Stops.{Lacks};

use crate::misread::{Misread, Reason};

/// A place in a document.
#[derive(Clone, Copy)]
pub(crate) struct Cursor<'a> {
    input: &'a [u8],
    place: usize,
    ghost within: { place ≤ length input.now },
}

impl<'a> Cursor<'a> {
    /// The place before a document.
    pub(crate) fn new(input: &'a [u8]) -> Self
        ensures input { result.input ≡ input.entry }
        ensures place { result.place ≡ 0 }
    {
        Cursor { input, place: 0 }
    }

    /// How many bytes come before.
    pub(crate) fn place(&self) -> usize
        ensures { result ≡ self.now.place }
    {
        self.place
    }

    /// What stands from here on.
    pub(crate) fn rest(&self) -> &'a [u8]
        ensures { result.now ≡ drop self.now.place self.now.input.now }
    {
        &self.input[self.place..]
    }

    /// The byte that stands here.
    pub(crate) fn peek(&self) -> Option<u8>
        ensures { MatchOption result (self.now.place ≡ length self.now.input.now) (λ b. (self.now.place < length self.now.input.now) × (slice_index self.now.input.now self.now.place ≡ b)) }
    {
        self.input.get(self.place).copied()
    }

    /// What cannot be read here, and why.
    pub(crate) fn misread(&self, reason: Reason) -> Misread
        ensures { result ≡ record { place = self.now.place; reason = reason } }
    {
        Misread {
            place: self.place,
            reason,
        }
    }

    /// Goes behind what was read.
    pub(crate) fn skip(&mut self, width: usize)
        requires { self.old.place + width ≤ length self.old.input.now }
        ensures input { self.new.input ≡ self.old.input }
        ensures place { self.new.place ≡ self.old.place + width }
    {
        self.place += width;
    }

    /// Goes behind the blanks that stand here.
    pub(crate) fn skip_blanks(&mut self)
        ensures input { self.new.input ≡ self.old.input }
        ensures place { self.new.place ≡ past_blanks self.old.input.now self.old.place }
    {
        self.skip(blanks(self.rest()));
    }

    /// Goes behind the blanks, and gives the byte that stands there.
    pub(crate) fn next_token(&mut self) -> Result<u8, Misread>
        ensures input { self.new.input ≡ self.old.input }
        ensures place { self.new.place ≡ past_blanks self.old.input.now self.old.place }
        ensures byte { IfOk result (λ b. (self.new.place < length self.new.input.now) × (slice_index self.new.input.now self.new.place ≡ b)) }
        ensures told { IfErr result (λ m. (m.reason ≡ Unfinished) × Told self.old.input.now m) }
        ensures ended { OnErr result (self.new.place ≡ length self.old.input.now) }
        ensures stops { IfErr result (λ m. Lacks self.old.input.now self.old.place m) }
    {
        self.skip_blanks();
        self.peek().ok_or(self.misread(Reason::Unfinished))
    }
}

/// Whether a byte is a blank.
fn is_blank(byte: u8) -> bool
    ensures { result ≡ is_blank byte }
{
    matches!(byte, b' ' | b'\t' | b'\r' | b'\n')
}

/// How many blanks stand at the front.
fn blanks(bytes: &[u8]) -> usize
    ensures is { result ≡ prefix_len is_blank bytes.now }
    ensures range { result ≤ length bytes.now }
{
    bytes.iter().take_while(|byte| is_blank(**byte)).count()
}
