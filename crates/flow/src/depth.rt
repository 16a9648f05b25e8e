ghost use Rattle.std.specs.Prelude.{◌≡◌, ◌+◌, MatchOption};

use tree::MAX_DEPTH;

/// How many more lists and maps may open in one another.
#[derive(Clone, Copy)]
pub(crate) struct Depth {
    left: usize,
}

impl Depth {
    /// Where none is open.
    pub(crate) fn outermost() -> Self
        ensures { result.left ≡ 64 }
    {
        Depth { left: MAX_DEPTH }
    }

    /// Inside of one more, if it may open.
    pub(crate) fn inside(self) -> Option<Depth>
        ensures { MatchOption result (self.left ≡ 0) (λ depth. self.left ≡ depth.left + 1) }
    {
        let left = self.left.checked_sub(1)?;
        Some(Depth { left })
    }
}
