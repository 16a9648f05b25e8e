ghost use Rattle.std.specs.Prelude.{◌≡◌, ℕ, ◌<◌, false, length, Some, List, Option};
ghost use Rattle.std.specs.Iterator.{YieldsFirstBy, item_count};
ghost use Rattle.buffer.specs.Appends.{Appended};
ghost use Rattle.backrefs.specs.Backrefs.{digit, has_backref, is_backref, is_meta, literal, literally, pairs, placeholder, put, substituted, text_of};
ghost use Rattle.backrefs.specs.Pairs.{meant_pair};

use buffer::{Buffer, Pieces, TooLong};

/// A pattern by its escapes alone.
#[derive(Clone, Copy)]
enum Pair {
    /// a backslash and the byte that it escapes
    Escaped(u8),
    Single(u8),
}

impl Pair {
    /// A backslash that no backslash escapes, before a digit.
    fn is_backref(self) -> bool
        ensures { result ≡ is_backref (meant_pair self) }
    {
        matches!(self, Pair::Escaped(b'0'..=b'9'))
    }
}

/// The pairs of what is left of a pattern.
#[derive(Drop)]
struct Pairs<'a>(&'a [u8]);

impl Iterator for Pairs<'_> {
    type Item = Pair;

    ghost next_gives = { YieldsFirstBy meant_pair (λ s. pairs s.0.now) };

    ghost remaining = { item_count (λ s. pairs s.0.now) };

    #[tactic(auto, using(crate::proofs::Pairs::no_pairs, crate::proofs::Pairs::escaped_first, crate::proofs::Pairs::single_first))]
    fn next(&mut self) -> Option<Pair> {
        match self.0 {
            [] => None,
            [b'\\', escaped, rest @ ..] => {
                self.0 = rest;
                Some(Pair::Escaped(*escaped))
            }
            [byte, rest @ ..] => {
                self.0 = rest;
                Some(Pair::Single(*byte))
            }
        }
    }
}

/// A backslash that no backslash escapes stands before a digit.
pub fn has_backrefs(regex: &[u8]) -> bool
    ensures { result ≡ has_backref regex.now }
{
    Pairs(regex).any(Pair::is_backref)
}

/// What is put in for each backreference.
pub trait Substituter {
    /// The text for each digit, or none.
    ghost part: { Self → ℕ → Option (List ℕ) };

    /// Appends the text for a digit.
    fn substitute(&self, digit: u8, out: &mut Buffer<u8>) -> Result<(), TooLong>
        ensures { Appended out.old.items (text_of (part self.now digit)) result out.new.items };
}

/// `<placeholder_d>` for the digit d.
fn placeholder(digit: u8) -> [u8; 15]
    requires { digit < 10 }
    ensures { Some result ≡ placeholder digit }
{
    let mut text = *b"<placeholder_0>";
    let [.., place, _] = &mut text;
    *place += digit;
    text
}

/// Puts in `<placeholder_d>` for each digit d.
#[derive(Clone, Copy)]
pub struct Placeholders;

impl Substituter for Placeholders {
    ghost part = { λ _. placeholder };

    fn substitute(&self, digit: u8, out: &mut Buffer<u8>) -> Result<(), TooLong> {
        match digit {
            0..=9 => out.extend(&placeholder(digit)),
            _ => Ok(()),
        }
    }
}

/// A byte that means something else than itself in a pattern.
fn is_meta(byte: u8) -> bool
    ensures { result ≡ is_meta byte }
{
    matches!(
        byte,
        b'\\'
            | b'.'
            | b'+'
            | b'*'
            | b'?'
            | b'('
            | b')'
            | b'|'
            | b'['
            | b']'
            | b'{'
            | b'}'
            | b'^'
            | b'$'
            | b'#'
            | b'&'
            | b'-'
            | b'~'
    )
}

fn write_literal_byte(byte: u8, out: &mut Buffer<u8>) -> Result<(), TooLong>
    ensures { Appended out.old.items (literal byte) result out.new.items }
{
    if is_meta(byte) {
        out.extend(&[b'\\', byte])
    } else {
        out.push(byte)
    }
}

/// What is left of a text that is written so that it matches itself.
#[derive(Drop)]
struct Literal<'a>(&'a [u8]);

impl Pieces<u8> for Literal<'_> {
    ghost left = { λ s. literally s.0.now };

    ghost size = { λ s. length s.0.now };

    fn write_next(&mut self, out: &mut Buffer<u8>) -> Option<Result<(), TooLong>> {
        let (byte, rest) = self.0.split_first()?;
        self.0 = rest;
        Some(write_literal_byte(*byte, out))
    }
}

/// Appends a text so that it matches itself.
pub(crate) fn write_literally(text: &[u8], out: &mut Buffer<u8>) -> Result<(), TooLong>
    ensures { Appended out.old.items (literally text.now) result out.new.items }
{
    out.write_pieces(Literal(text))
}

fn write_pair<S: Substituter>(
    pair: Pair,
    substituter: &S,
    out: &mut Buffer<u8>,
) -> Result<(), TooLong>
    ensures { Appended out.old.items (put (S.part substituter.now) (meant_pair pair)) result out.new.items }
{
    match pair {
        Pair::Escaped(byte) if byte.is_ascii_digit() => substituter.substitute(byte - b'0', out),
        Pair::Escaped(byte) => out.extend(&[b'\\', byte]),
        Pair::Single(byte) => out.push(byte),
    }
}

/// What is left of a pattern, with texts in the place of its backreferences.
#[derive(Drop)]
struct Substituted<'a, S> {
    pairs: Pairs<'a>,
    substituter: &'a S,
}

impl<S: Substituter> Pieces<u8> for Substituted<'_, S> {
    ghost left = { λ s. substituted (S.part s.substituter.now) s.pairs.0.now };

    ghost size = { λ s. length (pairs s.pairs.0.now) };

    fn write_next(&mut self, out: &mut Buffer<u8>) -> Option<Result<(), TooLong>> {
        let pair = self.pairs.next()?;
        Some(write_pair(pair, self.substituter, out))
    }
}

/// Puts the texts of `substituter` in the place of the pattern's backreferences.
pub fn substitute_backrefs_in_regex<S: Substituter>(
    regex: &[u8],
    substituter: &S,
    out: &mut Buffer<u8>,
) -> Result<(), TooLong>
    ensures text { Appended out.old.items (substituted (S.part substituter.now) regex.now) result out.new.items }
    ensures unchanged { has_backref regex.now ≡ false → substituted (S.part substituter.now) regex.now ≡ regex.now }
{
    out.write_pieces(Substituted {
        pairs: Pairs(regex),
        substituter,
    })
}
