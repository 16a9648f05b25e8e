ghost use Rattle.std.specs.Prelude.{◌≡◌, ◌≤◌, [], IfOk, vec_capacity};

use crate::node::MAX_NODES;
use std::alloc::{AllocError, Global};

/// What a check needs besides nodes and text. Made once and lent: no check can fail for want of memory.
#[derive(Drop)]
pub struct Workspace {
    /// the keys of the map that is looked at
    pub(crate) keys: Vec<u32>,
    ghost reserved: { 65536 ≤ vec_capacity keys },
}

impl Workspace {
    pub fn new(heap: Global) -> Result<Self, AllocError>
        ensures { IfOk result (λ w. w.keys.items ≡ []) }
    {
        let keys = Vec::with_capacity(heap, MAX_NODES)?;
        Ok(Workspace { keys })
    }
}
