ghost use Rattle.std.specs.Prelude.{◌≡◌, ◌≤◌, vec_capacity};
ghost use Rattle.graph.specs.Chains.{Chained, in_range};

use crate::graph::Graph;

/// The pairs from one place, chained from the last to the first.
#[derive(Drop)]
pub(crate) struct Chains {
    // Links are numbers and no boxes: the room is had beforehand, so that marking needs no memory.
    /// for each place the last pair from it
    pub(crate) heads: Vec<Option<usize>>,
    /// for each pair the one before it from the same place
    pub(crate) nexts: Vec<Option<usize>>,
}

/// The pair of that number, if both of its places are there.
pub(crate) fn pair_in_range<G: Graph>(
    graph: &G,
    places: usize,
    number: usize,
) -> Option<(usize, usize)>
    ensures { result ≡ in_range places (G.pair_at graph.now number) }
{
    graph
        .pair(number)
        .filter(|pair| pair.0 < places && pair.1 < places)
}

impl Chains {
    /// Chains all pairs of a graph, and forgets what was chained before.
    pub(crate) fn chain<G: Graph>(&mut self, graph: &G, places: usize, pairs: usize)
        requires heads { places ≤ vec_capacity self.old.heads }
        requires nexts { pairs ≤ vec_capacity self.old.nexts }
        ensures chained { Chained places (G.pair_at graph.now) pairs self.new.heads.items self.new.nexts.items }
        ensures heads_room { vec_capacity self.old.heads ≤ vec_capacity self.new.heads }
        ensures nexts_room { vec_capacity self.old.nexts ≤ vec_capacity self.new.nexts }
    {
        self.heads.clear();
        self.nexts.clear();
        let _ = self.heads.resize(places, None);
        for number in 0..pairs {
            // A `match`: a closure for `and_then` would change `self.heads`, and need clauses that say so.
            let before = match pair_in_range(graph, places, number) {
                Some((from, _)) => self.heads[from].replace(number),
                None => None,
            };
            self.nexts.push_reserved(before);
        }
    }
}
