//! A buffer whose memory is had when it is made, and whose length has a limit.

#![tactic(auto)]

ghost use Rattle.std.specs.Prelude.{◌≡◌, ℕ, ◌≤◌, List, [], ◌∷◌, length, take, Some, IfOk, vec_len, vec_capacity};
ghost use Rattle.buffer.specs.Appends.{Held, Appended, WroteNext, too_long_text};

use std::alloc::{AllocError, Global};
use std::error::Error;
use std::fmt;
use std::marker::Model;

/// The most items that a buffer holds.
pub const LIMIT: usize = 65_536;

/// What is to be written does not fit.
#[derive(Clone, Copy, PartialEq, Eq, Debug)]
pub struct TooLong;

impl fmt::Display for TooLong {
    ghost output = { λ _. Some too_long_text };

    fn fmt<W: fmt::Write>(&self, f: &mut fmt::Formatter<W>) -> fmt::Result {
        write!(f, "more than the {LIMIT} items that a buffer holds")
    }
}

impl Error for TooLong {}

/// Items that are written one after another, up to the limit.
///
/// The memory is had when the buffer is made: nothing that is written later can fail for want of it.
#[derive(Drop)]
pub struct Buffer<T> {
    items: Vec<T>,
    ghost within: { length items.items ≤ 65536 },
}

impl<T> Model for Buffer<T> {
    ghost Value = { Held T };

    ghost view = { λ b. record { items = b.items.items; within = b.within } };

    ghost invariant = { λ b. 65536 ≤ vec_capacity b.items };
}

/// What is written piece by piece.
pub trait Pieces<T: Copy> {
    /// The items that are still to be written.
    ghost left: { Self → List T };

    /// It falls with each piece.
    ghost size: { Self → ℕ };

    /// Writes the next piece, if there is one more: all of it, or nothing where there is no room.
    fn write_next(&mut self, out: &mut Buffer<T>) -> Option<Result<(), TooLong>>
        ensures { WroteNext (left self.old) (left self.new) (size self.old) (size self.new) result out.old.items out.new.items };
}

impl<T: Copy> Buffer<T> {
    pub fn new(heap: Global) -> Result<Self, AllocError>
        ensures { IfOk result (λ b. b.items ≡ []) }
    {
        let items = Vec::with_capacity(heap, LIMIT)?;
        Ok(Buffer { items })
    }

    pub fn as_slice(&self) -> &[T]
        ensures { result.now ≡ self.now.items }
    {
        self.items.as_slice()
    }

    /// How many items there are; that they are within the limit is learnt here.
    pub fn len(&self) -> usize
        ensures is { result ≡ length self.now.items }
        ensures within { result ≤ 65536 }
    {
        self.items.len()
    }

    pub fn clear(&mut self)
        ensures { self.new.items ≡ [] }
    {
        self.items.clear();
    }

    /// Keeps the first `len` items.
    pub fn truncate(&mut self, len: usize)
        ensures { self.new.items ≡ take len self.old.items }
    {
        self.items.truncate(len);
    }

    pub fn push(&mut self, item: T) -> Result<(), TooLong>
        ensures { Appended self.old.items (item ∷ []) result self.new.items }
    {
        if self.len() >= LIMIT {
            return Err(TooLong);
        }
        self.items.push_reserved(item);
        Ok(())
    }

    pub fn extend(&mut self, items: &[T]) -> Result<(), TooLong>
        ensures { Appended self.old.items items.now result self.new.items }
    {
        if items.len() > LIMIT - self.len() {
            return Err(TooLong);
        }
        self.items.extend_from_slice(items).map_err(|_| TooLong)
    }

    /// Appends all pieces, or nothing where there is no room for all of them.
    pub fn write_pieces<P: Pieces<T> + Drop>(&mut self, mut pieces: P) -> Result<(), TooLong>
        ensures { Appended self.old.items (P.left pieces) result self.new.items }
    {
        let before = self.len();
        while let Some(written) = pieces.write_next(self) {
            if let Err(refusal) = written {
                self.truncate(before);
                return Err(refusal);
            }
        }
        Ok(())
    }
}
