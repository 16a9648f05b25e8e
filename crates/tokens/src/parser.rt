ghost use Rattle.std.specs.Prelude.{◌≡◌, true, false, length, take, drop, if◌then◌else◌, Some, ◌≢◌};
ghost use Rattle.tokens.specs.Cursor.{front};
ghost use Rattle.buffer.specs.Appends.{Appended};
ghost use Rattle.tokens.specs.Reads.{Next, Taken, meant};
ghost use Rattle.tokens.specs.Starts.{starts};
ghost use Rattle.tokens.specs.Tokens.{comment_length, opens_comment, opens_group, spelled};

use crate::class::class_extent;
use buffer::{Buffer, TooLong};

/// One token of a pattern.
#[derive(Clone, Copy)]
pub enum Token<'a> {
    /// a backslash and the byte that it escapes
    Escape(u8),
    /// a backslash that ends the text
    FinalBackslash,
    /// from a `[` to the `]` that closes it, or to the end of the text
    Class {
        text: &'a [u8],
        matches_newline: bool,
    },
    /// from a `(?#` to the first `)` that is not escaped, or to the end of the text
    Comment(&'a [u8]),
    /// any other byte
    Plain(u8),
}

/// A cursor over what is left of a text.
#[derive(Clone, Copy)]
pub struct Parser<'a> {
    rest: &'a [u8],
}

impl<'a> Parser<'a> {
    pub fn new(bytes: &'a [u8]) -> Self
        ensures { result.rest.now ≡ bytes.now }
    {
        Parser { rest: bytes }
    }

    /// What is left of the text.
    pub fn rest(&self) -> &'a [u8]
        ensures { result.now ≡ self.now.rest.now }
    {
        let Parser { rest } = *self;
        rest
    }

    /// The next byte, which stays.
    pub fn peek(&self) -> Option<u8>
        ensures { result ≡ front self.now.rest.now }
    {
        self.rest.first().copied()
    }

    /// Goes on by one byte; at the end nothing happens.
    pub fn next(&mut self)
        ensures { self.new.rest.now ≡ drop 1 self.old.rest.now }
    {
        self.advance(1);
    }

    /// Goes on by `n` bytes, and gives them; fewer where the text ends.
    pub fn advance(&mut self, n: usize) -> &'a [u8]
        ensures taken { result.now ≡ take n self.old.rest.now }
        ensures left { self.new.rest.now ≡ drop n self.old.rest.now }
    {
        let bytes = self.rest;
        let (front, back) = bytes.split_at(n.min(bytes.len()));
        self.rest = back;
        front
    }

    /// Goes on behind `prefix` if that stands here, and says whether it does.
    pub fn eat(&mut self, prefix: &[u8]) -> bool
        ensures found { result ≡ starts prefix.now self.old.rest.now }
        ensures left { self.new.rest.now ≡ (if result then drop (length prefix.now) self.old.rest.now else self.old.rest.now) }
    {
        let found = self.rest.starts_with(prefix);
        if found {
            self.advance(prefix.len());
        }
        found
    }

    /// A group opens here.
    pub fn opens_group(&self) -> bool
        ensures { result ≡ opens_group self.now.rest.now }
    {
        matches!(self.rest, [b'(', ..]) && !self.opens_comment()
    }

    /// `(?#` stands here.
    pub fn opens_comment(&self) -> bool
        ensures { result ≡ opens_comment self.now.rest.now }
    {
        matches!(self.rest, [b'(', b'?', b'#', ..])
    }

    /// Reads the class whose `[` stands here.
    fn parse_character_class(&mut self) -> Token<'a>
        requires { front self.old.rest.now ≡ Some 91 }
        ensures { Taken result self.old.rest.now self.new.rest.now }
    {
        let text = self.rest;
        self.next();
        let extent = class_extent(self.rest);
        self.advance(extent.length);
        Token::Class {
            text: &text[0..extent.length + 1],
            matches_newline: extent.matches_newline,
        }
    }

    /// Reads the escape whose backslash stands here, or that backslash if it ends the text.
    fn escape(&mut self) -> Token<'a>
        requires { front self.old.rest.now ≡ Some 92 }
        ensures { Taken result self.old.rest.now self.new.rest.now }
    {
        self.next();
        let Some(escaped) = self.peek() else {
            return Token::FinalBackslash;
        };
        self.next();
        Token::Escape(escaped)
    }

    /// Reads the comment that opens here.
    fn comment(&mut self) -> Token<'a>
        requires { (front self.old.rest.now ≡ Some 40) × (opens_comment self.old.rest.now ≡ true) }
        ensures { Taken result self.old.rest.now self.new.rest.now }
    {
        let length = comment_length(self.rest);
        Token::Comment(self.advance(length))
    }

    /// Reads the byte that stands here, which begins no other token.
    fn plain(&mut self, byte: u8) -> Token<'a>
        requires at_front { front self.old.rest.now ≡ Some byte }
        requires begins_no_other { (byte ≢ 92) × (byte ≢ 91) × (byte ≡ 40 → opens_comment self.old.rest.now ≡ false) }
        ensures { Taken result self.old.rest.now self.new.rest.now }
    {
        self.next();
        Token::Plain(byte)
    }

    /// Reads the token that stands here; none at the end.
    pub fn token(&mut self) -> Option<Token<'a>>
        ensures { Next result self.old.rest.now self.new.rest.now }
    {
        Some(match self.peek()? {
            b'\\' => self.escape(),
            b'[' => self.parse_character_class(),
            b'(' if self.opens_comment() => self.comment(),
            byte => self.plain(byte),
        })
    }
}

/// How many bytes the comment at the front of `text` has, from its `(`.
fn comment_length(text: &[u8]) -> usize
    ensures { result ≡ comment_length false text.now }
{
    let mut escaped = false;
    for (before, byte) in text.iter().enumerate() {
        match (escaped, *byte) {
            (true, _) => escaped = false,
            (false, b')') => return before + 1,
            (false, byte) => escaped = byte == b'\\',
        }
    }
    text.len()
}

/// Writes a token as it stands.
pub fn write_token(token: Token, out: &mut Buffer<u8>) -> Result<(), TooLong>
    ensures { Appended out.old.items (spelled (meant token.entry)) result out.new.items }
{
    match token {
        Token::Escape(byte) => out.extend(&[b'\\', byte]),
        Token::FinalBackslash => out.push(b'\\'),
        Token::Class { text, .. } => out.extend(text),
        Token::Comment(text) => out.extend(text),
        Token::Plain(byte) => out.push(byte),
    }
}
