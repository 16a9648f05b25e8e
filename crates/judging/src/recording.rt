ghost use Rattle.std.specs.Prelude.{◌≡◌, ℕ, List, [], Some};
ghost use Rattle.buffer.specs.Appends.{Appended};
ghost use Rattle.judging.specs.Judging.{number_of};
ghost use Rattle.judging.specs.Recording.{Agreed, TakenDown, entry_for, only_taken, untaken_text};
ghost use Rattle.judging.specs.declared.recording.Untaken.TheVariants.{TooMany};

use crate::judging::judge_number;
use crate::range::TextRange;
use crate::recorded::{Entry, UNRECORDED};
use buffer::{Buffer, TooLong};
use engine::Engine;
use std::error::Error;
use std::fmt;

/// Why verdicts are not taken down.
#[derive(Clone, Copy, PartialEq, Eq, Debug)]
pub enum Untaken {
    /// the text of this number does not lie in the whole
    Outside { number: usize },
    /// there are more entries than a buffer holds
    TooMany,
}

impl fmt::Display for Untaken {
    ghost output = { λ untaken. Some (untaken_text untaken) };

    fn fmt<W: fmt::Write>(&self, f: &mut fmt::Formatter<W>) -> fmt::Result {
        match self {
            Untaken::Outside { number } => write!(f, "text {number} does not lie in the whole"),
            Untaken::TooMany => write!(f, "there are too many entries"),
        }
    }
}

impl Error for Untaken {}

impl From<TooLong> for Untaken {
    ghost from_gives = { λ _ untaken. untaken ≡ TooMany };

    fn from(_: TooLong) -> Self {
        Self::TooMany
    }
}

/// Takes down one verdict. A fault of the number 255 needs no entry: a text without one has that fault.
fn take_down(text: TextRange, verdict: u8, entries: &mut Buffer<Entry>) -> Result<(), TooLong>
    ensures { Appended entries.old.items (entry_for verdict text) result entries.new.items }
{
    if verdict == UNRECORDED {
        return Ok(());
    }
    entries.push(Entry { text, verdict })
}

/// Takes down the verdicts of texts one after another, until one cannot be had.
fn take_all<E: Engine>(
    engine: &mut E,
    whole: &[u8],
    texts: &[TextRange],
    entries: &mut Buffer<Entry>,
) -> Result<(), Untaken>
    requires { entries.old.items ≡ [] }
    ensures taken { TakenDown (λ t. number_of E.Fault.numbered (E.verdict engine.old t)) whole.now texts.now result (only_taken result entries.new.items) }
    ensures kept { (t : List ℕ) → E.verdict engine.new t ≡ E.verdict engine.old t }
{
    for (number, range) in texts.iter().enumerate() {
        let text = range.of(whole).ok_or(Untaken::Outside { number })?;
        let verdict = judge_number(engine, text);
        take_down(*range, verdict, entries)?;
    }
    Ok(())
}

/// Takes down what an engine says of texts, as the entries of a record; what `entries` held before is forgotten.
pub fn record_verdicts<E: Engine>(
    engine: &mut E,
    whole: &[u8],
    texts: &[TextRange],
    entries: &mut Buffer<Entry>,
) -> Result<(), Untaken>
    ensures taken { TakenDown (λ t. number_of E.Fault.numbered (E.verdict engine.old t)) whole.now texts.now result entries.new.items }
    ensures agrees { Agreed (λ t. number_of E.Fault.numbered (E.verdict engine.old t)) whole.now texts.now result entries.new.items }
    ensures kept { (t : List ℕ) → E.verdict engine.new t ≡ E.verdict engine.old t }
{
    entries.clear();
    let taken = take_all(engine, whole, texts, entries);
    if taken.is_err() {
        entries.clear();
    }
    taken
}
