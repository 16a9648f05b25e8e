ghost use Rattle.std.specs.Prelude.{◌≡◌, true, false, length, MatchOption};
ghost use Rattle.judging.specs.Ranges.{lies, text_at};

/// A text that lies in another: `length` bytes from the one at `start`.
#[derive(Clone, Copy, PartialEq, Eq, Debug)]
pub struct TextRange {
    pub start: usize,
    pub length: usize,
}

impl TextRange {
    /// It lies in a text of `len` bytes.
    pub(crate) fn lies_in(self, len: usize) -> bool
        ensures { result ≡ lies len self }
    {
        self.start <= len && self.length <= len - self.start
    }

    /// The bytes, if it lies in `whole`.
    pub(crate) fn of(self, whole: &[u8]) -> Option<&[u8]>
        ensures { MatchOption result (lies (length whole.now) self ≡ false) (λ t. (lies (length whole.now) self ≡ true) × (t.now ≡ text_at whole.now self)) }
    {
        whole.get(self.start..)?.get(..self.length)
    }

    /// The bytes, in a whole that it lies in.
    pub(crate) fn within(self, whole: &[u8]) -> &[u8]
        requires { lies (length whole.now) self ≡ true }
        ensures { result.now ≡ text_at whole.now self }
    {
        &whole[self.start..self.start + self.length]
    }
}
