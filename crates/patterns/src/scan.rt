ghost use Rattle.std.specs.Prelude.{◌≡◌, [], Some, IfOk};
ghost use Rattle.patterns.specs.Scans.{Scanned, refusal_text};
ghost use Rattle.patterns.specs.declared.scan.Refusal.TheVariants as refusals;

use scanner::{Buffer, Rewriter, TooLong, get_consuming_capture_indexes, has_backrefs};
use std::alloc::{AllocError, Global};
use std::error::Error;
use std::fmt;
use std::str::Utf8Error;

/// Why a pattern is refused.
#[derive(Clone, Copy, PartialEq, Eq, Debug)]
pub enum Refusal {
    /// a rewritten text, or the list of captures, is over the limit
    TooLong,
    NotUtf8,
}

impl fmt::Display for Refusal {
    ghost output = { λ refusal. Some (refusal_text refusal) };

    fn fmt<W: fmt::Write>(&self, f: &mut fmt::Formatter<W>) -> fmt::Result {
        f.write_str(match self {
            Refusal::TooLong => "too long",
            Refusal::NotUtf8 => "not UTF-8",
        })
    }
}

impl Error for Refusal {}

impl From<TooLong> for Refusal {
    ghost from_gives = { λ _ refusal. refusal ≡ refusals.TooLong };

    fn from(_: TooLong) -> Self {
        Self::TooLong
    }
}

impl From<Utf8Error> for Refusal {
    ghost from_gives = { λ _ refusal. refusal ≡ refusals.NotUtf8 };

    fn from(_: Utf8Error) -> Self {
        Self::NotUtf8
    }
}

/// What a pattern that is not refused uses.
#[derive(Clone, Copy, PartialEq, Eq, Debug)]
pub struct Features {
    pub backrefs: bool,
}

/// The texts that the scanner makes of a pattern.
#[derive(Drop)]
pub struct PatternScan {
    rewriter: Rewriter,
    with_newlines: Buffer<u8>,
    without_newlines: Buffer<u8>,
    captures: Buffer<usize>,
}

impl PatternScan {
    pub fn new(heap: Global) -> Result<Self, AllocError>
        ensures { IfOk result (λ s. (s.with_newlines.items ≡ []) × (s.without_newlines.items ≡ []) × (s.captures.items ≡ [])) }
    {
        let rewriter = Rewriter::new(heap)?;
        let with_newlines = Buffer::new(heap)?;
        let without_newlines = Buffer::new(heap)?;
        let captures = Buffer::new(heap)?;
        Ok(PatternScan {
            rewriter,
            with_newlines,
            without_newlines,
            captures,
        })
    }

    /// Reads one pattern; what was read before is forgotten.
    pub fn read(&mut self, pattern: &[u8]) -> Result<Features, Refusal>
        ensures { Scanned pattern.now result self.new.with_newlines.items self.new.without_newlines.items self.new.captures.items }
    {
        self.with_newlines.clear();
        self.without_newlines.clear();
        self.captures.clear();
        std::str::from_utf8(pattern)?;
        self.rewriter
            .rewrite(pattern, true, &mut self.with_newlines)?;
        self.rewriter
            .rewrite(pattern, false, &mut self.without_newlines)?;
        get_consuming_capture_indexes(pattern, &mut self.captures)?;
        Ok(Features {
            backrefs: has_backrefs(pattern),
        })
    }

    pub fn with_newlines(&self) -> &[u8]
        ensures { result.now ≡ self.now.with_newlines.items }
    {
        self.with_newlines.as_slice()
    }

    pub fn without_newlines(&self) -> &[u8]
        ensures { result.now ≡ self.now.without_newlines.items }
    {
        self.without_newlines.as_slice()
    }

    pub fn captures(&self) -> &[usize]
        ensures { result.now ≡ self.now.captures.items }
    {
        self.captures.as_slice()
    }
}
