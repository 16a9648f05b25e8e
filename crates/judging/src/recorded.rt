ghost use Rattle.std.specs.Prelude.{◌≡◌, true, length, All};
ghost use Rattle.std.proofs.Props.{props};
ghost use Rattle.judging.specs.Entries.{Sound};
ghost use Rattle.std.proofs.Common.{rules};

use crate::range::TextRange;
use engine::{Engine, Numbered};
use std::error::Error;
use std::fmt;
use std::num::NonZeroU8;

/// What is recorded of one text.
#[derive(Clone, Copy, PartialEq, Eq, Debug)]
pub struct Entry {
    pub text: TextRange,
    /// 0 is fine; 1 to 254 are faults: a byte, as records are kept outside
    pub verdict: u8,
}

/// A fault that was recorded, or that nothing was.
#[derive(Clone, Copy, PartialEq, Eq, Debug)]
pub struct RecordedFault {
    number: NonZeroU8,
}

/// The number of the fault of a text that is not recorded.
pub const UNRECORDED: u8 = 255;

impl Numbered for RecordedFault {
    ghost use Rattle.judging.specs.Records.{recorded_number};

    ghost numbered = { recorded_number };

    ghost ranged = { Prim.search rules };

    fn number(self) -> u8 {
        self.number.get()
    }
}

impl RecordedFault {
    ghost use Rattle.std.specs.Result.{result_err};
    ghost use Rattle.judging.specs.Records.{fault_of};

    /// What a verdict's number says.
    fn told(verdict: u8) -> Result<(), Self>
        ensures { result_err result ≡ fault_of verdict }
    {
        // A `match`: `map_or` would say the same with a closure.
        match NonZeroU8::new(verdict) {
            None => Ok(()),
            Some(number) => Err(RecordedFault { number }),
        }
    }
}

impl fmt::Display for RecordedFault {
    ghost use Rattle.std.specs.Prelude.{Some};
    ghost use Rattle.judging.specs.Records.{recorded_text};

    ghost output = { λ fault. Some (recorded_text fault) };

    fn fmt<W: fmt::Write>(&self, f: &mut fmt::Formatter<W>) -> fmt::Result {
        let number = self.number.get();
        write!(f, "the fault of number {number}")
    }
}

impl Error for RecordedFault {}

/// Why entries are no record.
#[derive(Clone, Copy, PartialEq, Eq, Debug)]
pub enum RecordRefusal {
    /// the text of this entry does not lie in the whole
    Outside { entry: usize },
    /// the verdict of this entry is 255, which no entry can say
    NoVerdict { entry: usize },
}

impl fmt::Display for RecordRefusal {
    ghost use Rattle.std.specs.Prelude.{Some};
    ghost use Rattle.judging.specs.Records.{refusal_text};

    ghost output = { λ refusal. Some (refusal_text refusal) };

    fn fmt<W: fmt::Write>(&self, f: &mut fmt::Formatter<W>) -> fmt::Result {
        match self {
            RecordRefusal::Outside { entry } => {
                write!(f, "the text of entry {entry} does not lie in the whole")
            }
            RecordRefusal::NoVerdict { entry } => write!(f, "entry {entry} has no verdict"),
        }
    }
}

impl Error for RecordRefusal {}

/// Verdicts that were taken down, each for a text in one whole.
#[derive(Clone, Copy)]
pub struct RecordedEngine<'a> {
    whole: &'a [u8],
    entries: &'a [Entry],
    ghost sound: { All (Sound whole.now) entries.now } by { Prim.hlevel props },
}

impl<'a> RecordedEngine<'a> {
    ghost use Rattle.std.specs.List.{find};
    ghost use Rattle.std.specs.Option.{option_copied};
    ghost use Rattle.judging.specs.Records.{Made, RecordLaws, is_text};

    /// Refuses the first entry whose text does not lie in the whole or whose verdict is none.
    #[tactic(auto, using(crate::proofs::RecordLaws::record_laws))]
    pub fn new(whole: &'a [u8], entries: &'a [Entry]) -> Result<Self, RecordRefusal>
        ensures made { Made whole.now entries.now result }
        ensures laws { RecordLaws }
    {
        for (number, entry) in entries.iter().enumerate() {
            if !entry.text.lies_in(whole.len()) {
                return Err(RecordRefusal::Outside { entry: number });
            }
            if entry.verdict == UNRECORDED {
                return Err(RecordRefusal::NoVerdict { entry: number });
            }
        }
        Ok(RecordedEngine { whole, entries })
    }

    /// The first entry that has this text.
    fn entry_of(&self, text: &[u8]) -> Option<&Entry>
        ensures { option_copied result ≡ find (λ entry. is_text self.now.whole.now text.now entry.text) self.now.entries.now }
    {
        let whole = self.whole;
        self.entries.iter().find(
            |entry| -> bool
                requires { Sound whole.now entry.now.now }
                ensures { result ≡ is_text whole.entry.now text.entry.now entry.now.now.text }
            { entry.text.within(whole) == text },
        )
    }
}

impl<'a> Engine for RecordedEngine<'a> {
    ghost use Rattle.judging.specs.Records.{recorded};

    type Fault = RecordedFault;

    ghost verdict = { λ m. recorded m.whole.now m.entries.now };

    #[tactic(auto, using(crate::proofs::RecordLaws::found_first))]
    fn judge(&mut self, text: &[u8]) -> Result<(), RecordedFault> {
        let found = self.entry_of(text);
        RecordedFault::told(found.map_or(UNRECORDED, |entry| entry.verdict))
    }
}
