ghost use Rattle.std.specs.Prelude.{◌≡◌, ◌+◌, ◌<◌, ◌≤◌, true, false, not, [], ◌∷◌, ◌++◌, length, count_by, All, get_or, if◌then◌else◌, IfSome, MatchOption, vec_len, vec_capacity, slice_index, slice_set};
ghost use Rattle.graph.specs.Reached.{Marked};
ghost use Rattle.graph.specs.Spreading.{Lined};
ghost use Rattle.std.proofs.Props.{props};

use std::mem;

/// The marks, and the marked places in the order in which they were marked.
#[derive(Drop)]
pub(crate) struct Frontier<'a> {
    pub(crate) marks: &'a mut [bool],
    // Nothing is taken out of it: each place stands in it once, so the room for all places is enough.
    pub(crate) queue: &'a mut Vec<usize>,
    /// how many of the queue have been taken: those behind them wait
    pub(crate) next: usize,
    ghost room: { vec_len queue.now + count_by not marks.now ≤ vec_capacity queue.now },
    ghost marked: { All (Marked marks.now) queue.now.items } by { Prim.hlevel props },
    ghost inside: { next ≤ vec_len queue.now },
}

impl<'a> Frontier<'a> {
    ghost use Rattle.graph.specs.Lent.{SameLent};

    /// All marked places wait.
    pub(crate) fn new(marks: &'a mut [bool], queue: &'a mut Vec<usize>) -> Self
        requires { length marks.old ≤ vec_capacity queue.old }
        ensures marks { result.marks.now ≡ marks.old }
        ensures lined { Lined marks.old result.queue.now.items }
        ensures next { result.next ≡ 0 }
        ensures room { vec_capacity result.queue.now ≡ vec_capacity queue.old }
        ensures same_marks { result.marks.ghost_name ≡ marks.entry.ghost_name }
        ensures same_queue { result.queue.ghost_name ≡ queue.entry.ghost_name }
    {
        queue.clear();
        for (place, marked) in marks.iter().enumerate() {
            if *marked {
                queue.push_reserved(place);
            }
        }
        Frontier {
            marks,
            queue,
            next: 0,
        }
    }

    /// Marks a place, which waits then if it was not marked.
    pub(crate) fn mark(&mut self, place: usize)
        requires { place < length self.old.marks.now }
        ensures marks { self.new.marks.now ≡ slice_set self.old.marks.now place true }
        ensures queue { self.new.queue.now.items ≡ (if get_or self.old.marks.now place false then self.old.queue.now.items else self.old.queue.now.items ++ place ∷ []) }
        ensures next { self.new.next ≡ self.old.next }
        ensures lent { SameLent self.old self.new }
    {
        // Borrowed by name, since the check takes no element within a struct that has a ghost field.
        let marks = &mut *self.marks;
        if !mem::replace(&mut marks[place], true) {
            self.queue.push_reserved(place);
        }
    }

    /// Takes the place that has waited longest.
    pub(crate) fn pop(&mut self) -> Option<usize>
        ensures first { MatchOption result (self.old.next ≡ length self.old.queue.now.items) (λ place. (self.old.next < length self.old.queue.now.items) × (slice_index self.old.queue.now.items self.old.next ≡ place)) }
        ensures next { MatchOption result (self.new.next ≡ self.old.next) (λ _. self.new.next ≡ self.old.next + 1) }
        ensures marked { IfSome result (λ place. Marked self.new.marks.now place) }
        ensures marks { self.new.marks.now ≡ self.old.marks.now }
        ensures queue { self.new.queue.now.items ≡ self.old.queue.now.items }
        ensures lent { SameLent self.old self.new }
    {
        let place = self.queue.get(self.next).copied()?;
        self.next += 1;
        Some(place)
    }
}
