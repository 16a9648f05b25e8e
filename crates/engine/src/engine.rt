ghost use Rattle.std.specs.Prelude.{◌≡◌, ℕ, ◌≤◌, List, Option};
ghost use Rattle.std.specs.Result.{result_err};

/// A fault that has a number, from 1 to 255: records keep faults by their numbers.
pub trait Numbered: Copy {
    ghost numbered: { Self → ℕ };

    fn number(self) -> u8
        ensures { result ≡ numbered self };

    ghost ranged: { (fault : Self) → (1 ≤ numbered fault) × (numbered fault ≤ 255) };
}

/// A regular-expression engine, as far as a loader knows it: for each text it has one verdict, fine or a fault of its own.
pub trait Engine {
    type Fault: Numbered;

    /// The fault of each text, or none.
    ghost verdict: { Self → List ℕ → Option Self.Fault };

    /// Answers the verdict of a text; every verdict stays as it was.
    fn judge(&mut self, text: &[u8]) -> Result<(), Self::Fault>
        ensures answer { result_err result ≡ verdict self.old text.now }
        ensures kept { (t : List ℕ) → verdict self.new t ≡ verdict self.old t };
}
