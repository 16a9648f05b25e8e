ghost use Rattle.std.specs.Prelude.{◌≡◌, length};
ghost use Rattle.std.specs.List.{flat_map};
ghost use Rattle.buffer.specs.Appends.{Appended};
ghost use Rattle.newlines.specs.Newlines.{for_newlines, for_no_newlines, repeats, token_without, with_newline};
ghost use Rattle.tokens.specs.Reads.{meant, Told};

use buffer::{Buffer, Pieces, TooLong};
use tokens::{Parser, Token, write_token};

/// What is left of a pattern, written token by token for lines that end with a newline.
#[derive(Clone, Copy)]
struct ForNewlines<'a>(Parser<'a>);

impl Pieces<u8> for ForNewlines<'_> {
    ghost left = { λ s. for_newlines s.0.rest.now };

    ghost size = { λ s. length s.0.rest.now };

    fn write_next(&mut self, out: &mut Buffer<u8>) -> Option<Result<(), TooLong>> {
        Some(write_for_newlines(self.0.token()?, out))
    }
}

fn write_for_newlines(token: Token, out: &mut Buffer<u8>) -> Result<(), TooLong>
    ensures { Appended out.old.items (with_newline (meant token.entry)) result out.new.items }
{
    match token {
        Token::Plain(b'$') => out.extend(b"(?m:$)"),
        _ => write_token(token, out),
    }
}

/// Rewrites a pattern for lines that end with a newline: a `$` matches before that newline.
pub fn regex_for_newlines(regex: &[u8], out: &mut Buffer<u8>) -> Result<(), TooLong>
    ensures { Appended out.old.items (for_newlines regex.now) result out.new.items }
{
    out.write_pieces(ForNewlines(Parser::new(regex)))
}

/// What is left of a pattern, written piece by piece for lines that end without a newline.
#[derive(Clone, Copy)]
struct ForNoNewlines<'a>(Parser<'a>);

impl Pieces<u8> for ForNoNewlines<'_> {
    ghost left = { λ s. for_no_newlines s.0.rest.now };

    ghost size = { λ s. length s.0.rest.now };

    fn write_next(&mut self, out: &mut Buffer<u8>) -> Option<Result<(), TooLong>> {
        if self.0.eat(b"(?:\\n)?") {
            return Some(out.extend(b"(?:$|)"));
        }
        let token = self.0.token()?;
        Some(write_for_no_newlines(token, self.0.peek(), out))
    }
}

/// Writes a token; `next` is the byte behind it.
fn write_for_no_newlines(
    token: Token,
    next: Option<u8>,
    out: &mut Buffer<u8>,
) -> Result<(), TooLong>
    requires { Told token }
    ensures { Appended out.old.items (token_without (meant token.entry) next) result out.new.items }
{
    match token {
        Token::Escape(b'n') if !is_repeat(next) => out.push(b'$'),
        Token::Class {
            text,
            matches_newline: true,
        } if next != Some(b'?') => out.write_pieces(Texts(&[b"(?:", text, b"|$)"])),
        _ => write_token(token, out),
    }
}

/// The byte behind a token repeats it.
fn is_repeat(next: Option<u8>) -> bool
    ensures { result ≡ repeats next }
{
    matches!(next, Some(b'?' | b'+' | b'*'))
}

/// Texts that are written one behind the other.
#[derive(Clone, Copy)]
struct Texts<'a>(&'a [&'a [u8]]);

impl Pieces<u8> for Texts<'_> {
    ghost left = { λ s. flat_map (λ text. text.now) s.0.now };

    ghost size = { λ s. length s.0.now };

    fn write_next(&mut self, out: &mut Buffer<u8>) -> Option<Result<(), TooLong>> {
        let [text, others @ ..] = self.0 else {
            return None;
        };
        self.0 = others;
        Some(out.extend(text))
    }
}

/// Rewrites a pattern for lines that end without a newline: `$` stands where a newline was to match.
pub fn regex_for_no_newlines(regex: &[u8], out: &mut Buffer<u8>) -> Result<(), TooLong>
    ensures { Appended out.old.items (for_no_newlines regex.now) result out.new.items }
{
    out.write_pieces(ForNoNewlines(Parser::new(regex)))
}
