ghost use Rattle.std.specs.Prelude.{◌≡◌, false, length, is_ok, Ok, Some};
ghost use Rattle.graph.specs.Laws.{Laws};
ghost use Rattle.graph.specs.Lent.{SameLent};
ghost use Rattle.graph.specs.Reached.{Marked, Marking};
ghost use Rattle.graph.specs.Spreading.{Grown, Lined, Spread};
ghost use Rattle.graph.specs.Verdict.{refusal_text, verdict};

use crate::by_place::PairsByPlace;
use crate::frontier::Frontier;
use crate::graph::Graph;
use crate::workspace::Workspace;
use std::error::Error;
use std::fmt;

/// Marks the places that the pairs from a marked place lead to.
fn spread<G: Graph>(pairs: &PairsByPlace<G>, place: usize, front: &mut Frontier)
    requires marked { Marked front.old.marks.now place }
    requires long { length front.old.marks.now ≡ G.place_count pairs.now.graph.now }
    ensures grows { Grown (G.place_count pairs.now.graph.now) (G.pair_count pairs.now.graph.now) (G.pair_at pairs.now.graph.now) front.old.marks.now front.old.queue.now.items front.new.marks.now front.new.queue.now.items }
    ensures leads { Spread (G.place_count pairs.now.graph.now) (G.pair_count pairs.now.graph.now) (G.pair_at pairs.now.graph.now) front.new.marks.now place }
    ensures next { front.new.next ≡ front.old.next }
    ensures lent { SameLent front.old front.new }
{
    for to in pairs.targets(place) {
        front.mark(to);
    }
}

/// Lets every waiting place spread its mark, and those that wait because of that.
fn spread_all<G: Graph>(pairs: &PairsByPlace<G>, front: &mut Frontier)
    requires long { length front.old.marks.now ≡ G.place_count pairs.now.graph.now }
    requires lined { Lined front.old.marks.now front.old.queue.now.items }
    requires next { front.old.next ≡ 0 }
    ensures marking { Marking (G.place_count pairs.now.graph.now) (G.pair_count pairs.now.graph.now) (G.pair_at pairs.now.graph.now) front.old.marks.now front.new.marks.now }
    ensures lent { SameLent front.old front.new }
{
    while let Some(place) = front.pop() {
        spread(pairs, place, front);
    }
}

/// Why nothing is marked.
#[derive(Clone, Copy, PartialEq, Eq, Debug)]
pub enum Refusal {
    /// there is not one mark for each place
    WrongLength,
    /// the graph has more places or pairs than the workspace was made for
    SmallWorkspace,
}

impl fmt::Display for Refusal {
    ghost output = { λ refusal. Some (refusal_text refusal) };

    fn fmt<W: fmt::Write>(&self, f: &mut fmt::Formatter<W>) -> fmt::Result {
        f.write_str(match self {
            Refusal::WrongLength => "there is not one mark for each place",
            Refusal::SmallWorkspace => "the graph is too large for the workspace",
        })
    }
}

impl Error for Refusal {}

/// Marks the places that pairs lead to, one after another, from the places that are marked.
#[tactic(auto, using(crate::proofs::Lawful::laws_of_marking))]
pub fn mark<G: Graph>(graph: &G, marks: &mut [bool], work: &mut Workspace) -> Result<(), Refusal>
    ensures verdict { result ≡ verdict (length marks.old) (G.place_count graph.now) (G.pair_count graph.now) work.old.places work.old.pairs }
    ensures marking { result ≡ Ok tt → Marking (G.place_count graph.now) (G.pair_count graph.now) (G.pair_at graph.now) marks.old marks.new }
    ensures refused { is_ok result ≡ false → marks.new ≡ marks.old }
    ensures places { work.new.places ≡ work.old.places }
    ensures pairs { work.new.pairs ≡ work.old.pairs }
    ensures laws { Laws }
{
    let places = graph.places();
    let count = graph.pairs();
    if marks.len() != places {
        return Err(Refusal::WrongLength);
    }
    if !work.fits(places, count) {
        return Err(Refusal::SmallWorkspace);
    }
    work.chains.chain(graph, places, count);
    let pairs = PairsByPlace {
        graph,
        chains: &work.chains,
    };
    let mut front = Frontier::new(marks, &mut work.queue);
    spread_all(&pairs, &mut front);
    Ok(())
}
