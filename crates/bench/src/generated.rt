//! Graphs that are made of numbers alone, to measure on.
ghost use Rattle.std.specs.Prelude.{◌+◌, ◌-◌, ◌*◌, ◌/◌, ◌%◌, if◌then◌else◌, Some, None, nat_lt};

use graph::Graph;

/// Each place leads to the next; the pair from the last place but one comes first.
pub struct Chain {
    pub places: usize,
}

impl Graph for Chain {
    ghost place_count = { λ s. s.places };

    ghost pair_count = { λ s. s.places - 1 };

    ghost pair_at = { λ s n. (if nat_lt (n + 1) s.places then Some (s.places - 2 - n, s.places - 1 - n) else None) };

    fn places(&self) -> usize {
        self.places
    }

    fn pairs(&self) -> usize {
        self.places.saturating_sub(1)
    }

    fn pair(&self, number: usize) -> Option<(usize, usize)> {
        let to = self.pairs().checked_sub(number)?;
        let from = to.checked_sub(1)?;
        Some((from, to))
    }
}

/// Each place leads to each.
pub struct Dense {
    pub places: u32,
}

impl Graph for Dense {
    ghost place_count = { λ s. s.places };

    ghost pair_count = { λ s. s.places * s.places };

    ghost pair_at = { λ s n. (if nat_lt 0 s.places then Some (n / s.places, n % s.places) else None) };

    fn places(&self) -> usize {
        self.places as usize
    }

    fn pairs(&self) -> usize {
        self.places as usize * self.places as usize
    }

    fn pair(&self, number: usize) -> Option<(usize, usize)> {
        let places = self.places as usize;
        let from = number.checked_div(places)?;
        let to = number.checked_rem(places)?;
        Some((from, to))
    }
}
