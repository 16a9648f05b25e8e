ghost use Rattle.std.specs.Prelude.{◌≡◌, ℕ, Option};

/// Places, numbered from 0, and pairs of places, numbered from 0.
///
/// What is asked is answered the same each time.
pub trait Graph {
    ghost place_count: { Self → ℕ };

    ghost pair_count: { Self → ℕ };

    ghost pair_at: { Self → ℕ → Option (ℕ × ℕ) };

    fn places(&self) -> usize
        ensures { result ≡ place_count self.now };

    fn pairs(&self) -> usize
        ensures { result ≡ pair_count self.now };

    /// The places that the pair goes from and to, or none.
    fn pair(&self, number: usize) -> Option<(usize, usize)>
        ensures { result ≡ pair_at self.now number };
}
