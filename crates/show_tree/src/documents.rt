ghost use Rattle.std.specs.Prelude.{◌≡◌, ℕ, ◌+◌, ◌-◌, ◌<◌, ◌≤◌, true, false, length, take, count_by, slice_range, MatchOption};
ghost use Rattle.std.specs.Iterator.{at_most};
ghost use Rattle.show_tree.specs.Lines.{is_line_feed, is_mark};

/// What begins a line that parts two documents.
const MARK: &[u8] = b"---";

/// Whether a line that begins with the mark begins here.
fn is_mark(input: &[u8], place: usize) -> bool
    requires { place < length input.now }
    ensures { result ≡ is_mark input.now place }
{
    (place == 0 || input[place - 1] == b'\n') && input[place..].starts_with(MARK)
}

/// The first place from `from` on where a mark begins.
fn find_mark(input: &[u8], from: usize) -> Option<usize>
    ensures { MatchOption result ((k : ℕ) → from ≤ k → k < length input.now → is_mark input.now k ≡ false) (λ p. (from ≤ p) × (p < length input.now) × (is_mark input.now p ≡ true) × ((k : ℕ) → from ≤ k → k < p → is_mark input.now k ≡ false)) }
{
    (from..input.len()).find(|place| is_mark(input, *place))
}

/// The next place from `from` on where a mark begins, or the end.
fn next_mark(input: &[u8], from: usize) -> usize
    requires { from ≤ length input.now }
    ensures range { (from ≤ result) × (result ≤ length input.now) }
    ensures mark { result < length input.now → is_mark input.now result ≡ true }
    ensures first { (k : ℕ) → from ≤ k → k < result → is_mark input.now k ≡ false }
{
    find_mark(input, from).unwrap_or(input.len())
}

/// How many line feeds there are.
fn line_feeds(bytes: &[u8]) -> usize
    ensures range { result ≤ length bytes.now }
    ensures is { result ≡ count_by is_line_feed bytes.now }
{
    // A plain loop: the line of a refusal is counted from the first byte on, and `filter` and `count` took half as long again.
    let mut count = 0;
    for byte in bytes {
        if *byte == b'\n' {
            count += 1;
        }
    }
    count
}

/// The line of a place, from 1.
pub(crate) fn line_of(input: &[u8], place: usize) -> usize
    ensures { result ≡ 1 + count_by is_line_feed (take place input.now) }
{
    line_feeds(&input[..place.min(input.len())]) + 1
}

/// A document, and the input that it stands in.
#[derive(Clone, Copy)]
pub(crate) struct Document<'a> {
    pub(crate) input: &'a [u8],
    pub(crate) from: usize,
    end: usize,
    ghost ordered: { from ≤ end },
    ghost within: { end ≤ length input.now },
}

impl<'a> Document<'a> {
    pub(crate) fn bytes(&self) -> &'a [u8]
        ensures { result.now ≡ slice_range self.now.input.now self.now.from self.now.end }
    {
        &self.input[self.from..self.end]
    }
}

/// The documents of an input, parted by marks.
#[derive(Drop)]
pub(crate) struct Documents<'a> {
    input: &'a [u8],
    from: usize,
    ghost within: { from ≤ length input.now },
}

impl<'a> Documents<'a> {
    pub(crate) fn of(input: &'a [u8]) -> Self
        ensures input { result.input ≡ input.entry }
        ensures from { result.from ≡ 0 }
    {
        Documents { input, from: 0 }
    }
}

impl<'a> Iterator for Documents<'a> {
    type Item = Document<'a>;

    ghost use Rattle.show_tree.specs.Documents.{CutsNext};

    ghost next_gives = { CutsNext };

    ghost remaining = { λ rest. at_most (length rest.input.now - rest.from) };

    fn next(&mut self) -> Option<Document<'a>> {
        let from = self.from;
        if from >= self.input.len() {
            return None;
        }
        let end = next_mark(self.input, from);
        self.from = (end + MARK.len()).min(self.input.len());
        Some(Document {
            input: self.input,
            from,
            end,
        })
    }
}
