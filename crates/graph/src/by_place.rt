ghost use Rattle.std.specs.Prelude.{◌≡◌, ◌<◌, true};
ghost use Rattle.graph.specs.Chains.{Chained, chain_targets, counts, targets};
ghost use Rattle.std.specs.Iterator.{YieldsFirst, item_count};
ghost use Rattle.std.proofs.Props.{props};

use crate::chains::Chains;
use crate::graph::Graph;

/// The pairs of a graph, found by the place that they go from.
#[derive(Drop)]
pub(crate) struct PairsByPlace<'a, G: Graph> {
    pub(crate) graph: &'a G,
    pub(crate) chains: &'a Chains,
    ghost chained: { Chained (G.place_count graph.now) (G.pair_at graph.now) (G.pair_count graph.now) chains.now.heads.items chains.now.nexts.items } by { Prim.hlevel props },
}

impl<G: Graph> PairsByPlace<'_, G> {
    /// Where the pairs from a place go to.
    pub(crate) fn targets(&self, place: usize) -> Targets<G>
        requires { place < G.place_count self.now.graph.now }
        ensures { chain_targets (G.place_count result.pairs.now.graph.now) (G.pair_at result.pairs.now.graph.now) result.next ≡ targets (G.place_count self.now.graph.now) (G.pair_at self.now.graph.now) (G.pair_count self.now.graph.now) place }
    {
        Targets {
            pairs: self,
            next: self.chains.heads[place],
        }
    }
}

/// Goes along the chain of one place, and gives what its pairs go to.
#[derive(Drop)]
pub(crate) struct Targets<'a, G: Graph> {
    pairs: &'a PairsByPlace<'a, G>,
    next: Option<usize>,
    ghost counts: { counts (G.place_count pairs.now.graph.now) (G.pair_count pairs.now.graph.now) (G.pair_at pairs.now.graph.now) next ≡ true },
}

impl<G: Graph> Iterator for Targets<'_, G> {
    type Item = usize;

    ghost next_gives = { YieldsFirst (λ s. chain_targets (G.place_count s.pairs.now.graph.now) (G.pair_at s.pairs.now.graph.now) s.next) };

    ghost remaining = { item_count (λ s. chain_targets (G.place_count s.pairs.now.graph.now) (G.pair_at s.pairs.now.graph.now) s.next) };

    fn next(&mut self) -> Option<usize> {
        let number = self.next?;
        let (_, to) = self.pairs.graph.pair(number)?;
        self.next = self.pairs.chains.nexts[number];
        Some(to)
    }
}
