ghost use Rattle.std.specs.Prelude.{length, None, slice_index_or};

use crate::graph::Graph;
use crate::marking::{Refusal, mark};
use crate::workspace::Workspace;
use std::test::Fail;

/// Pairs that are written out.
#[derive(Clone, Copy)]
struct Listed<'a> {
    places: usize,
    pairs: &'a [Option<(usize, usize)>],
}

impl Graph for Listed<'_> {
    ghost place_count = { λ s. s.places };

    ghost pair_count = { λ s. length s.pairs.now };

    ghost pair_at = { λ s n. slice_index_or s.pairs.now n None };

    fn places(&self) -> usize {
        self.places
    }

    fn pairs(&self) -> usize {
        self.pairs.len()
    }

    fn pair(&self, number: usize) -> Option<(usize, usize)> {
        self.pairs.get(number).copied().flatten()
    }
}

#[test]
fn marks_what_is_reached_and_nothing_else(rt: HostRuntime) -> Result<(), Fail> {
    let pairs = [
        Some((3, 4)),
        None,
        Some((1, 3)),
        Some((9, 2)),
        Some((2, 9)),
        Some((0, 1)),
        Some((4, 1)),
        Some((5, 0)),
    ];
    let graph = Listed {
        places: 6,
        pairs: &pairs,
    };
    let mut work = Workspace::new(rt.alloc(), 6, 8)?;
    let mut marks = [true, false, false, false, false, false];
    assert_eq!(rt; mark(&graph, &mut marks, &mut work), Ok(()));
    assert_eq!(rt; marks, [true, true, false, true, true, false]);
    Ok(())
}

#[test]
fn refuses_and_leaves_the_marks(rt: HostRuntime) -> Result<(), Fail> {
    let pairs = [Some((0, 1)), Some((1, 2))];
    let graph = Listed {
        places: 3,
        pairs: &pairs,
    };
    let mut small = Workspace::new(rt.alloc(), 3, 1)?;
    let mut work = Workspace::new(rt.alloc(), 3, 2)?;
    let mut short = [true, false];
    assert_eq!(rt;
        mark(&graph, &mut short, &mut work),
        Err(Refusal::WrongLength)
    );
    assert_eq!(rt; short, [true, false]);
    let mut marks = [true, false, false];
    assert_eq!(rt;
        mark(&graph, &mut marks, &mut small),
        Err(Refusal::SmallWorkspace)
    );
    assert_eq!(rt; marks, [true, false, false]);
    assert_eq!(rt; mark(&graph, &mut marks, &mut work), Ok(()));
    assert_eq!(rt; marks, [true, true, true]);
    Ok(())
}
