ghost use Rattle.std.specs.Prelude.{◌≤◌, length};
ghost use Rattle.std.specs.Iterator.{YieldsFirst, item_count};
ghost use Rattle.tree_rule.specs.Nodes.{Forward, entries_of, from};

use crate::node::RawNode;

/// The children of a node by their numbers: each begins where all that the one before holds has ended.
#[derive(Clone, Copy)]
pub struct Children<'a> {
    pub nodes: &'a [RawNode],
    /// the child that comes next, if it lies before the end
    pub next: usize,
    /// the number of the first node behind the last child
    pub end: usize,
    pub ghost within: { end ≤ length nodes.now },
    pub ghost forward: { Forward nodes.now end },
}

impl Iterator for Children<'_> {
    type Item = usize;

    ghost next_gives = { YieldsFirst (λ s. from s.nodes.now s.end s.next) };

    ghost remaining = { item_count (λ s. from s.nodes.now s.end s.next) };

    fn next(&mut self) -> Option<usize> {
        if self.next >= self.end {
            return None;
        }
        let child = self.next;
        self.next = self.nodes[child].end as usize;
        Some(child)
    }
}

/// The entries of a map: key and value by their numbers, one entry after another.
#[derive(Clone, Copy)]
pub struct Entries<'a> {
    pub children: Children<'a>,
}

impl Iterator for Entries<'_> {
    type Item = (usize, usize);

    ghost next_gives = { YieldsFirst (λ s. entries_of (from s.children.nodes.now s.children.end s.children.next)) };

    ghost remaining = { item_count (λ s. entries_of (from s.children.nodes.now s.children.end s.children.next)) };

    fn next(&mut self) -> Option<(usize, usize)> {
        let key = self.children.next()?;
        let value = self.children.next()?;
        Some((key, value))
    }
}
