ghost use Rattle.std.specs.Prelude.{◌≡◌, ◌+◌, ◌^◌, ◌<◌, [], ◌++◌, drop, length};
ghost use Rattle.buffer.specs.Appends.{Appended};
ghost use Rattle.groups.specs.Captures.{Rising, consuming_captures, depth_after, entered, found_number, group_of, listed, marks, named, name_byte, name_ends, number_after, numbers_from, opening, width};
ghost use Rattle.groups.specs.Marks.{NextMark, meant_mark};

use buffer::{Buffer, Pieces, TooLong};
use tokens::{Parser, Token};

/// What a group is to the numbering.
#[derive(Clone, Copy)]
pub(crate) enum Group {
    Capturing,
    Lookaround,
    Other,
}

/// How a group opens, by the bytes behind its `(`.
#[derive(Clone, Copy)]
pub(crate) enum Opening {
    /// the `(` ends the text
    Last,
    /// no `?` follows
    Plain,
    /// `(?` ends the text
    Asked,
    /// `(?=` or `(?!`
    Lookahead,
    /// `(?<=` or `(?<!`
    Lookbehind,
    /// any other `(?<`
    Angled,
    /// `(?'`
    Quoted,
    /// `(?P<`
    Python,
    /// `(?` and any other byte
    Unnamed,
}

impl Opening {
    fn at_front(behind: &[u8]) -> Opening
        ensures { result ≡ opening behind.now }
    {
        match behind {
            [] => Opening::Last,
            [b'?'] => Opening::Asked,
            [b'?', b'=' | b'!', ..] => Opening::Lookahead,
            [b'?', b'<', b'=' | b'!', ..] => Opening::Lookbehind,
            [b'?', b'<', ..] => Opening::Angled,
            [b'?', b'\'', ..] => Opening::Quoted,
            [b'?', b'P', b'<', ..] => Opening::Python,
            [b'?', ..] => Opening::Unnamed,
            [_, ..] => Opening::Plain,
        }
    }

    /// How many bytes the opening takes, its `(` among them.
    fn width(self) -> usize
        ensures { result ≡ width self }
    {
        match self {
            Opening::Last | Opening::Plain => 1,
            Opening::Asked => 2,
            Opening::Lookahead
            | Opening::Angled
            | Opening::Quoted
            | Opening::Python
            | Opening::Unnamed => 3,
            Opening::Lookbehind => 4,
        }
    }

    /// What the group is that opens so, by the bytes behind its `(`.
    fn group(self, behind: &[u8]) -> Group
        ensures { result ≡ group_of self behind.now }
    {
        match self {
            Opening::Plain | Opening::Python => Group::Capturing,
            Opening::Lookahead | Opening::Lookbehind => Group::Lookaround,
            Opening::Angled if is_named(behind, b'>') => Group::Capturing,
            Opening::Quoted if is_named(behind, b'\'') => Group::Capturing,
            Opening::Last | Opening::Asked | Opening::Angled | Opening::Quoted | Opening::Unnamed =>
                Group::Other,
        }
    }
}

/// A name and the byte that closes it stand two bytes behind the `(` of a group.
fn is_named(behind: &[u8], close: u8) -> bool
    ensures { result ≡ named close (drop 2 behind.now) }
{
    match behind {
        [_, _, first, rest @ ..] => is_name_byte(*first) && name_ends(rest, close),
        _ => false,
    }
}

fn is_name_byte(byte: u8) -> bool
    ensures { result ≡ name_byte byte }
{
    matches!(byte, b'0'..=b'9' | b'A'..=b'Z' | b'a'..=b'z' | b'_' | 128..)
}

/// The rest of a name goes on up to the byte that closes it.
fn name_ends(text: &[u8], close: u8) -> bool
    ensures { result ≡ name_ends close text.now }
{
    let end = text
        .iter()
        .find(|byte| **byte == close || !is_name_byte(**byte));
    end == Some(&close)
}

/// The opening of a group, or any other token.
#[derive(Clone, Copy)]
enum Mark<'a> {
    Opens(Group),
    Token(Token<'a>),
}

/// Reads the mark that stands here; none at the end.
fn read_mark<'a>(parser: &mut Parser<'a>) -> Option<Mark<'a>>
    ensures { NextMark result parser.old.rest.now parser.new.rest.now }
{
    if parser.opens_group() {
        let behind = &parser.rest()[1..];
        let opening = Opening::at_front(behind);
        parser.advance(opening.width());
        return Some(Mark::Opens(opening.group(behind)));
    }
    parser.token().map(Mark::Token)
}

/// What the numbering keeps of the groups so far.
#[derive(Clone, Copy)]
struct Numbering {
    /// the number of the last capturing group
    number: usize,
    /// how many groups are open from the outermost lookaround inwards
    lookaround_depth: usize,
}

impl Numbering {
    /// Enters a group that is no lookaround.
    fn enter(&mut self)
        requires { self.old.lookaround_depth + 1 < 2 ^ 64 }
        ensures number { self.new.number ≡ self.old.number }
        ensures depth { self.new.lookaround_depth ≡ entered self.old.lookaround_depth }
    {
        if self.lookaround_depth > 0 {
            self.lookaround_depth += 1;
        }
    }

    /// Goes on by a mark, and gives the number of the group that it opens where that is valid.
    fn meet(&mut self, mark: Mark) -> Option<usize>
        requires { (self.old.number + 1 < 2 ^ 64) × (self.old.lookaround_depth + 1 < 2 ^ 64) }
        ensures number { self.new.number ≡ number_after self.old.number (meant_mark [] mark.entry) }
        ensures depth { self.new.lookaround_depth ≡ depth_after self.old.lookaround_depth (meant_mark [] mark.entry) }
        ensures found { result ≡ found_number self.old.lookaround_depth self.old.number (meant_mark [] mark.entry) }
    {
        match mark {
            Mark::Opens(Group::Capturing) => {
                let outside = self.lookaround_depth == 0;
                self.number += 1;
                self.enter();
                outside.then_some(self.number)
            }
            Mark::Opens(Group::Lookaround) => {
                self.lookaround_depth += 1;
                None
            }
            Mark::Opens(Group::Other) => {
                self.enter();
                None
            }
            Mark::Token(Token::Plain(b')')) => {
                self.lookaround_depth = self.lookaround_depth.saturating_sub(1);
                None
            }
            Mark::Token(_) => None,
        }
    }
}

/// The numbers of the groups whose text is consumed, found mark by mark.
#[derive(Clone, Copy)]
struct GroupNumbers<'a> {
    /// the number of the whole match, until it is written
    whole: Option<usize>,
    parser: Parser<'a>,
    numbering: Numbering,
    // no more groups are numbered, or open, than bytes are read
    ghost few: { numbering.number + length parser.rest.now < 2 ^ 64 },
    ghost shallow: { numbering.lookaround_depth + length parser.rest.now < 2 ^ 64 },
}

impl Pieces<usize> for GroupNumbers<'_> {
    ghost left = { λ s. listed s.whole ++ numbers_from s.numbering.lookaround_depth s.numbering.number (marks s.parser.rest.now) };

    ghost size = { λ s. length (listed s.whole) + length s.parser.rest.now };

    fn write_next(&mut self, out: &mut Buffer<usize>) -> Option<Result<(), TooLong>> {
        if let Some(whole) = self.whole.take() {
            return Some(out.push(whole));
        }
        let mark = read_mark(&mut self.parser)?;
        // A `match`: `extend(found.as_slice())` would copy nothing at most marks.
        Some(match self.numbering.meet(mark) {
            Some(number) => out.push(number),
            None => Ok(()),
        })
    }
}

/// Appends the numbers of the groups whose text is consumed, rising: 0 for the whole match, and each capturing group that
/// lies in no lookaround.
pub fn get_consuming_capture_indexes(regex: &[u8], out: &mut Buffer<usize>) -> Result<(), TooLong>
    ensures numbers { Appended out.old.items (consuming_captures regex.now) result out.new.items }
    ensures rising { Rising (consuming_captures regex.now) }
{
    out.write_pieces(GroupNumbers {
        whole: Some(0),
        parser: Parser::new(regex),
        numbering: Numbering {
            number: 0,
            lookaround_depth: 0,
        },
    })
}
