//! What can be done with any engine: judging lists of texts, and recording verdicts for an engine that answers from the record.

#![tactic(auto)]

mod judging;
mod range;
mod recorded;
mod recording;

pub use judging::{Refused, judge_all, judge_number};
pub use range::TextRange;
pub use recorded::{Entry, RecordRefusal, RecordedEngine, RecordedFault, UNRECORDED};
pub use recording::{Untaken, record_verdicts};
