ghost use Rattle.std.specs.Prelude.{◌≡◌, ◌+◌, ◌^◌, ◌<◌, ◌≤◌, ◌++◌, length, take, drop, Some, None};
ghost use Rattle.buffer.specs.Appends.{Appended};
ghost use Rattle.tokens.specs.Starts.{starts};
ghost use Rattle.tokens.specs.Posix.{WroteFrom, bracket_at, bracket_here, bracket_of, depth_in, left_from, property_of, with_properties};

use crate::class::ClassWalker;
use crate::parser::{Parser, write_token};
use buffer::{Buffer, Pieces, TooLong};

/// The POSIX brackets that are rewritten.
#[derive(Clone, Copy)]
pub enum PosixClass {
    Alpha,
    Alnum,
    Lower,
    Upper,
    Digit,
}

/// How many bytes each of the brackets has.
const BRACKET_LENGTH: usize = 9;

impl PosixClass {
    const ALL: [PosixClass; 5] = [
        PosixClass::Alpha,
        PosixClass::Alnum,
        PosixClass::Lower,
        PosixClass::Upper,
        PosixClass::Digit,
    ];

    fn bracket(self) -> &'static [u8]
        ensures { result.now ≡ bracket_of self }
    {
        match self {
            PosixClass::Alpha => b"[:alpha:]",
            PosixClass::Alnum => b"[:alnum:]",
            PosixClass::Lower => b"[:lower:]",
            PosixClass::Upper => b"[:upper:]",
            PosixClass::Digit => b"[:digit:]",
        }
    }

    fn stands_at(self, text: &[u8]) -> bool
        ensures { result ≡ starts (bracket_of self) text.now }
    {
        text.starts_with(self.bracket())
    }

    /// The bracket that stands at the front of `text`.
    #[inline(never)]
    fn at_front(text: &[u8]) -> Option<PosixClass>
        ensures { result ≡ bracket_at text.now }
    {
        // Where none stands, mostly one look at the place of its `]` tells.
        if text.get(BRACKET_LENGTH - 1) != Some(&b']') {
            return None;
        }
        PosixClass::ALL
            .iter()
            .copied()
            .find(|class| class.stands_at(text))
    }

    /// The Unicode properties that match what the bracket is to match.
    fn properties(self) -> &'static [u8]
        ensures { result.now ≡ property_of self }
    {
        match self {
            PosixClass::Alpha => b"\\p{L}",
            PosixClass::Alnum => b"\\p{L}\\p{N}",
            PosixClass::Lower => b"\\p{Ll}",
            PosixClass::Upper => b"\\p{Lu}",
            PosixClass::Digit => b"\\p{Nd}",
        }
    }
}

/// The bracket that stands at the front of `text`, where the walk through the class may meet one.
#[inline]
fn bracket_here(walker: &ClassWalker, text: &[u8]) -> Option<PosixClass>
    ensures { result ≡ bracket_here walker.now text.now }
{
    if text.starts_with(b"[") && !walker.is_escaped() {
        PosixClass::at_front(text)
    } else {
        None
    }
}

/// Bytes of a class that stay as they are.
#[derive(Clone, Copy)]
struct Run {
    length: usize,
    /// the walk through the class behind them; none behind the `]` that closes it
    behind: Option<ClassWalker>,
}

/// The bytes from here to the next bracket, or to the `]` that closes the class.
#[inline(always)]
fn run_in_class(mut walker: ClassWalker, text: &[u8]) -> Run
    requires shallow { walker.depth + length text.now < 2 ^ 64 }
    ensures within { result.length ≤ length text.now }
    ensures stays { left_from (Some walker) text.now ≡ take result.length text.now ++ left_from result.behind (drop result.length text.now) }
    ensures shallow { depth_in result.behind ≤ walker.depth + result.length }
    ensures goes_on { bracket_here walker text.now ≡ None → 0 < length text.now → 0 < result.length }
{
    for (before, byte) in text.iter().enumerate() {
        if *byte == b'[' && bracket_here(&walker, &text[before..]).is_some() {
            return Run {
                length: before,
                behind: Some(walker),
            };
        }
        if walker.step(*byte) {
            return Run {
                length: before + 1,
                behind: None,
            };
        }
    }
    Run {
        length: text.len(),
        behind: Some(walker),
    }
}

/// A pattern with properties in the place of its brackets, written piece by piece.
#[derive(Clone, Copy)]
struct WithProperties<'a> {
    parser: Parser<'a>,
    /// the walk through the class that the parser stands in
    class: Option<ClassWalker>,
    ghost shallow: { depth_in class + length parser.rest.now < 2 ^ 64 },
}

impl WithProperties<'_> {
    /// Writes what stands here outside of a class.
    fn write_outside(&mut self, out: &mut Buffer<u8>) -> Option<Result<(), TooLong>>
        requires { self.old.class ≡ None }
        ensures { WroteFrom self.old.class self.old.parser.rest.now self.new.class self.new.parser.rest.now result out.old.items out.new.items }
    {
        if self.parser.peek()? == b'[' {
            let text = self.parser.rest();
            let run = run_in_class(ClassWalker::new(), &text[1..]);
            self.class = run.behind;
            return Some(out.extend(self.parser.advance(run.length + 1)));
        }
        let token = self.parser.token()?;
        Some(write_token(token, out))
    }

    /// Writes what stands here in a class.
    fn write_inside(
        &mut self,
        mut walker: ClassWalker,
        out: &mut Buffer<u8>,
    ) -> Option<Result<(), TooLong>>
        requires { self.old.class ≡ Some walker }
        ensures { WroteFrom self.old.class self.old.parser.rest.now self.new.class self.new.parser.rest.now result out.old.items out.new.items }
    {
        let text = self.parser.rest();
        if text.is_empty() {
            return None;
        }
        if let Some(bracket) = bracket_here(&walker, text) {
            self.parser.advance(BRACKET_LENGTH);
            walker.pass_bracket();
            self.class = Some(walker);
            return Some(out.extend(bracket.properties()));
        }
        let run = run_in_class(walker, text);
        self.class = run.behind;
        Some(out.extend(self.parser.advance(run.length)))
    }
}

impl Pieces<u8> for WithProperties<'_> {
    ghost left = { λ s. left_from s.class s.parser.rest.now };

    ghost size = { λ s. length s.parser.rest.now };

    fn write_next(&mut self, out: &mut Buffer<u8>) -> Option<Result<(), TooLong>> {
        match self.class {
            Some(walker) => self.write_inside(walker, out),
            None => self.write_outside(out),
        }
    }
}

/// Puts Unicode properties in the place of the POSIX brackets of the pattern's classes, which match ASCII only.
pub fn replace_posix_char_classes(regex: &[u8], out: &mut Buffer<u8>) -> Result<(), TooLong>
    ensures { Appended out.old.items (with_properties regex.now) result out.new.items }
{
    out.write_pieces(WithProperties {
        parser: Parser::new(regex),
        class: None,
    })
}
