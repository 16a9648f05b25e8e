ghost use Rattle.std.specs.Prelude.{◌≡◌, ℕ, ◌≤◌, List};
ghost use Rattle.judging.specs.Judging.{Judged, number_of, refused_text};

use crate::range::TextRange;
use engine::{Engine, Numbered};
use std::error::Error;
use std::fmt;

/// Why a list of texts is not fine.
#[derive(Clone, Copy, PartialEq, Eq, Debug)]
pub enum Refused<F> {
    /// the text of this number does not lie in the whole
    Outside { number: usize },
    /// the engine finds this fault in the text of this number
    Faulty { number: usize, fault: F },
}

impl<F: fmt::Display> fmt::Display for Refused<F> {
    ghost output = { refused_text F.output };

    fn fmt<W: fmt::Write>(&self, f: &mut fmt::Formatter<W>) -> fmt::Result {
        match self {
            Refused::Outside { number } => write!(f, "text {number} does not lie in the whole"),
            Refused::Faulty { number, fault } => write!(f, "text {number}: {fault}"),
        }
    }
}

impl<F: Error + Copy> Error for Refused<F> {}

/// Judges texts in their order: all are fine, or the first that is not is told, with its fault.
// Engine, whole and texts stay apart, here and below: callers hold them apart, and a struct would be made for one call.
pub fn judge_all<E: Engine>(
    engine: &mut E,
    whole: &[u8],
    texts: &[TextRange],
) -> Result<(), Refused<E::Fault>>
    ensures first { Judged (E.verdict engine.old) whole.now texts.now result }
    ensures kept { (t : List ℕ) → E.verdict engine.new t ≡ E.verdict engine.old t }
{
    for (number, range) in texts.iter().enumerate() {
        let text = range.of(whole).ok_or(Refused::Outside { number })?;
        engine
            .judge(text)
            .map_err(|fault| Refused::Faulty { number, fault })?;
    }
    Ok(())
}

/// The number of a text's fault, or 0 if it is fine, as a record has it.
pub fn judge_number<E: Engine>(engine: &mut E, text: &[u8]) -> u8
    ensures number { result ≡ number_of E.Fault.numbered (E.verdict engine.old text.now) }
    ensures kept { (t : List ℕ) → E.verdict engine.new t ≡ E.verdict engine.old t }
{
    engine.judge(text).err().map_or(0, Numbered::number)
}
