ghost use Rattle.std.specs.Prelude.{◌≡◌, ◌≤◌, ◌&&◌, IfOk, vec_capacity, nat_le};

use crate::chains::Chains;
use std::alloc::{AllocError, Global};

/// Working memory for graphs up to a size.
///
/// The memory is had when it is made: marking itself cannot fail for want of it.
#[derive(Drop)]
pub struct Workspace {
    // Both numbers stand beside the vectors: a refusal goes by them, and a capacity may be larger.
    /// how many places a graph may have
    pub(crate) places: usize,
    /// how many pairs a graph may have
    pub(crate) pairs: usize,
    pub(crate) chains: Chains,
    /// the marked places, in the order in which they spread
    pub(crate) queue: Vec<usize>,
    ghost heads_fit: { places ≤ vec_capacity chains.heads },
    ghost nexts_fit: { pairs ≤ vec_capacity chains.nexts },
    ghost queue_fits: { places ≤ vec_capacity queue },
}

impl Workspace {
    pub fn new(heap: Global, places: usize, pairs: usize) -> Result<Self, AllocError>
        ensures places { IfOk result (λ w. w.places ≡ places) }
        ensures pairs { IfOk result (λ w. w.pairs ≡ pairs) }
    {
        let heads = Vec::with_capacity(heap, places)?;
        let nexts = Vec::with_capacity(heap, pairs)?;
        let queue = Vec::with_capacity(heap, places)?;
        Ok(Workspace {
            places,
            pairs,
            chains: Chains { heads, nexts },
            queue,
        })
    }

    /// A graph of that size can be marked.
    pub(crate) fn fits(&self, places: usize, pairs: usize) -> bool
        ensures { result ≡ nat_le places self.now.places && nat_le pairs self.now.pairs }
    {
        places <= self.places && pairs <= self.pairs
    }
}
