//! Measures marking on generated graphs: how many places are marked on standard output, times on standard error.

#![tactic(auto)]

ghost use Rattle.std.specs.Prelude.{◌≡◌, count_by};

mod generated;

use generated::{Chain, Dense};
use graph::{Graph, Workspace, mark};
use std::time::Instant;

/// How often each graph is marked; the best time counts.
const ROUNDS: usize = 9;

fn count_marked(marks: &[bool]) -> usize
    ensures { result ≡ count_by (λ b. b) marks.now }
{
    marks.iter().filter(|marked| **marked).count()
}

/// Marks the graph from its first place.
fn measure<G: Graph>(rt: &HostRuntime, name: &str, graph: &G) -> anyhow::Result<()> {
    let places = graph.places();
    let mut work = Workspace::new(rt.alloc(), places, graph.pairs())?;
    let mut marks = vec![in rt.alloc(); false; places]?;
    let mut best = u128::MAX;
    for _ in 0..ROUNDS {
        marks.fill(false);
        if let Some(first) = marks.first_mut() {
            *first = true;
        }
        let start = Instant::now(rt)?;
        mark(graph, &mut marks, &mut work)?;
        best = best.min(start.elapsed(rt)?.as_micros());
    }
    let marked = count_marked(&marks);
    println!(rt; "{name}: {marked} of {places} places marked")?;
    eprintln!(rt; "{name}: {best} microseconds")?;
    Ok(())
}

fn main(rt: HostRuntime) -> anyhow::Result<()> {
    measure(&rt, "chain", &Chain { places: 65_536 })?;
    measure(&rt, "dense", &Dense { places: 512 })?;
    measure(&rt, "empty", &Chain { places: 0 })
}
