ghost use Rattle.std.specs.Prelude.{◌≡◌, ◌==◌, encode_utf8, cond, take, ℕ, ◌+◌, ◌-◌, ◌*◌, ◌^◌, ◌<◌, ◌≤◌, ◌⊎◌, ◌≢◌, List, ◌∷◌, [], ◌++◌, length, drop, vec_len, IfSome, IfOk, IfErr, OnOk, Ok, Err, MatchResult, slice_index};
ghost use Rattle.flow.specs.Content.{node_of};
ghost use Rattle.flow.specs.declared.misread.Reason.TheVariants.{Trailing};
ghost use Rattle.flow.specs.Places.{NoRoom, ReadPiece, Told, Wrote};
ghost use Rattle.flow.specs.Reads.{Reads};
ghost use Rattle.flow.specs.Scalars.{character as character_of, code_unit, escape, escaped, hex_value, pair_of, piece, Inside, Integer};
ghost use Rattle.flow.specs.Stops.{PieceReason, StopsInside, StopsLeaf};
ghost use Rattle.flow.specs.Flow.{Key};
ghost use Rattle.std.specs.List.{prefix_len};
ghost use Rattle.std.specs.Char.{is_ascii_digit};
ghost use Rattle.std.specs.Int.{IsInRange};

use crate::arrays::Arrays;
use crate::content::Content;
use crate::cursor::Cursor;
use crate::misread::{Misread, Reason};

/// How many digits stand at the front.
// Beside `blanks` no twin to be joined: one function over both would be longer than each chain, and ask of its closure that it may be called.
fn digits(bytes: &[u8]) -> usize
    ensures range { result ≤ length bytes.now }
    ensures is { result ≡ prefix_len is_ascii_digit bytes.now }
{
    bytes
        .iter()
        .take_while(|byte| byte.is_ascii_digit())
        .count()
}

/// How many bytes at the front are a minus sign and digits.
fn integer_width(bytes: &[u8]) -> usize
    ensures range { result ≤ length bytes.now }
    ensures is { result ≡ cond (slice_index bytes.now 0 == 45) (1 + prefix_len is_ascii_digit (drop 1 bytes.now)) (prefix_len is_ascii_digit bytes.now) }
    ensures no_plus { slice_index (take result bytes.now) 0 ≢ 43 }
{
    match bytes {
        [b'-', rest @ ..] => 1 + digits(rest),
        _ => digits(bytes),
    }
}

/// The integer of 64 bits that these bytes are.
fn integer(bytes: &[u8]) -> Option<i64>
    // `parse` takes a plus sign too, which the flow form does not know
    ensures { slice_index bytes.now 0 ≢ 43 → IfSome result (λ z. (0 < length bytes.now) × ((rest : List ℕ) → Integer (bytes.now ++ rest) rest z)) }
{
    std::str::from_utf8(bytes).ok()?.parse().ok()
}

/// The byte that stands for an escape of two bytes, by its second.
fn simple_escape(byte: u8) -> Option<u8>
    ensures { result ≡ escaped byte }
{
    match byte {
        b'"' | b'\\' | b'/' => Some(byte),
        b'b' => Some(8),
        b't' => Some(b'\t'),
        b'n' => Some(b'\n'),
        b'f' => Some(12),
        b'r' => Some(b'\r'),
        _ => None,
    }
}

/// What a hexadecimal digit counts.
fn hex_digit(byte: u8) -> Option<u32>
    ensures is { result ≡ hex_value byte }
    ensures range { IfSome result (λ d. d < 16) }
{
    char::from(byte).to_digit(16)
}

/// The number of a `\uXXXX` at the front.
fn code_unit(bytes: &[u8]) -> Option<u32>
    ensures is { result ≡ code_unit bytes.now }
    ensures range { IfSome result (λ u. (u < 65536) × (6 ≤ length bytes.now)) }
{
    let [b'\\', b'u', a, b, c, d, ..] = bytes else {
        return None;
    };
    let high = hex_digit(*a)? * 16 + hex_digit(*b)?;
    let low = hex_digit(*c)? * 16 + hex_digit(*d)?;
    Some(high * 256 + low)
}

/// The character that two parts of a surrogate pair are.
fn pair(high: u32, low: u32) -> Option<char>
    ensures { result ≡ pair_of high low }
{
    match (high, low) {
        (0xD800..=0xDBFF, 0xDC00..=0xDFFF) => {
            char::from_u32(0x10000 + (high - 0xD800) * 1024 + (low - 0xDC00))
        }
        _ => None,
    }
}

/// The character at the front and the width of its escape: one `\uXXXX`, or two that are a surrogate pair.
fn unicode_escape(bytes: &[u8]) -> Option<(char, usize)>
    ensures is { result ≡ character_of bytes.now }
    ensures range { IfSome result (λ p. (0 < p.1) × (p.1 ≤ length bytes.now)) }
{
    let first = code_unit(bytes)?;
    if let Some(character) = char::from_u32(first) {
        return Some((character, 6));
    }
    let second = code_unit(&bytes[6..])?;
    Some((pair(first, second)?, 12))
}

/// Writes a character in UTF-8.
fn push_char(character: char, arrays: &mut Arrays) -> Result<(), Reason>
    ensures nodes { arrays.new.nodes ≡ arrays.old.nodes }
    ensures text { MatchResult result (λ _. arrays.new.text.items ≡ arrays.old.text.items ++ encode_utf8 character) (λ e. NoRoom e) }
{
    let mut utf8 = [0; 4];
    arrays.push_text(character.encode_utf8(&mut utf8).as_bytes())
}

/// Writes what the escape at the front stands for, and gives its width.
fn push_escape(bytes: &[u8], arrays: &mut Arrays) -> Result<usize, Reason>
    ensures nodes { arrays.new.nodes ≡ arrays.old.nodes }
    ensures text { Wrote (escape bytes.now) result arrays.old.text.items arrays.new.text.items }
    ensures range { IfOk result (λ w. (0 < w) × (w ≤ length bytes.now)) }
{
    if let Some((character, width)) = unicode_escape(bytes) {
        push_char(character, arrays)?;
        return Ok(width);
    }
    let byte = bytes
        .get(1)
        .and_then(|byte| simple_escape(*byte))
        .ok_or(Reason::BadEscape)?;
    arrays.push_text(&[byte])?;
    Ok(2)
}

/// Writes the byte of a string at the front, or the escape, and gives its width.
fn push_piece(bytes: &[u8], arrays: &mut Arrays) -> Result<usize, Reason>
    requires { 0 < length bytes.now }
    ensures nodes { arrays.new.nodes ≡ arrays.old.nodes }
    ensures text { Wrote (piece bytes.now) result arrays.old.text.items arrays.new.text.items }
    ensures range { IfOk result (λ w. (0 < w) × (w ≤ length bytes.now)) }
{
    match bytes[0] {
        b'\\' => push_escape(bytes, arrays),
        0..=31 => Err(Reason::Control),
        byte => {
            arrays.push_text(&[byte])?;
            Ok(1)
        }
    }
}

// The arrays are handed on beside the cursor, and are no part of it: what only moves the cursor leaves them alone, with no clause to say so.
impl Cursor<'_> {
    /// Writes a node for what stands here.
    pub(crate) fn push(&self, content: Content, arrays: &mut Arrays) -> Result<(), Misread>
        ensures text { arrays.new.text ≡ arrays.old.text }
        ensures nodes { OnOk result (arrays.new.nodes.items ≡ arrays.old.nodes.items ++ node_of content (length arrays.old.nodes.items + 1) ∷ []) }
        ensures place { IfErr result (λ m. m.place ≡ self.now.place) }
        ensures refused { IfErr result (λ m. NoRoom m.reason) }
    {
        // By hand, since of a closure that calls `misread` the check learns neither place nor reason.
        let place = self.place();
        arrays
            .push(content)
            .map_err(|reason| Misread { place, reason })
    }

    /// Reads an integer.
    pub(crate) fn read_integer(&mut self, arrays: &mut Arrays) -> Result<(), Misread>
        ensures input { self.new.input ≡ self.old.input }
        ensures inside { IfErr result (λ m. m.reason ≢ Trailing) }
        ensures place { IfErr result (λ m. m.place ≡ self.old.place) }
        ensures told { (slice_index self.old.input.now self.old.place ≡ 45) ⊎ IsInRange 48 57 (slice_index self.old.input.now self.old.place) → IfErr result (λ m. Told self.old.input.now m) }
        ensures stops { IfErr result (λ m. StopsLeaf self.old.input.now self.old.place m) }
        ensures reads { OnOk result (Reads Key self.old self.new arrays.old arrays.new) }
    {
        let rest = self.rest();
        let width = integer_width(rest);
        let number = integer(&rest[..width]).ok_or(self.misread(Reason::BadNumber))?;
        self.push(Content::Integer(number), arrays)?;
        self.skip(width);
        Ok(())
    }

    /// Reads a byte of a string, or an escape.
    fn read_piece(&mut self, arrays: &mut Arrays) -> Result<(), Misread>
        requires { self.old.place < length self.old.input.now }
        ensures input { self.new.input ≡ self.old.input }
        ensures inside { IfErr result (λ m. m.reason ≢ Trailing) }
        ensures onward { OnOk result (self.old.place < self.new.place) }
        ensures told { IfErr result (λ m. Told self.old.input.now m) }
        ensures stops { IfErr result (λ m. (m.place ≡ self.old.place) × PieceReason m.reason) }
        ensures nodes { arrays.new.nodes ≡ arrays.old.nodes }
        ensures text { OnOk result (ReadPiece self.old.input.now self.old.place self.new.place arrays.old.text.items arrays.new.text.items) }
    {
        let place = self.place();
        let width = push_piece(self.rest(), arrays).map_err(|reason| Misread { place, reason })?;
        self.skip(width);
        Ok(())
    }

    /// Reads the bytes of a string, and its closing quote.
    fn read_bytes(&mut self, arrays: &mut Arrays) -> Result<(), Misread>
        ensures input { self.new.input ≡ self.old.input }
        ensures inside { IfErr result (λ m. m.reason ≢ Trailing) }
        ensures onward { OnOk result (self.old.place < self.new.place) }
        ensures told { IfErr result (λ m. Told self.old.input.now m) }
        ensures stops { IfErr result (λ m. StopsInside self.old.input.now self.old.place m) }
        ensures nodes { arrays.new.nodes ≡ arrays.old.nodes }
        ensures text { OnOk result ((ts : List ℕ) × (Inside (drop self.old.place self.old.input.now) (drop self.new.place self.old.input.now) ts) × (arrays.new.text.items ≡ arrays.old.text.items ++ ts)) }
    {
        while let Some(byte) = self.peek() {
            if byte == b'"' {
                self.skip(1);
                return Ok(());
            }
            self.read_piece(arrays)?;
        }
        Err(self.misread(Reason::OpenString))
    }

    /// Reads the string whose opening quote stands here.
    pub(crate) fn read_string(&mut self, arrays: &mut Arrays) -> Result<(), Misread>
        requires { self.old.place < length self.old.input.now }
        ensures input { self.new.input ≡ self.old.input }
        ensures inside { IfErr result (λ m. m.reason ≢ Trailing) }
        ensures told { IfErr result (λ m. Told self.old.input.now m) }
        ensures stops { slice_index self.old.input.now self.old.place ≡ 34 → IfErr result (λ m. StopsLeaf self.old.input.now self.old.place m) }
        ensures reads { slice_index self.old.input.now self.old.place ≡ 34 → OnOk result (Reads Key self.old self.new arrays.old arrays.new) }
    {
        let quote = *self;
        let start = arrays.text.len();
        self.skip(1);
        self.read_bytes(arrays)?;
        let length = arrays.text.len() - start;
        let content = Content::Text {
            place: start as u32,
            length: length as u32,
        };
        quote.push(content, arrays)
    }
}
