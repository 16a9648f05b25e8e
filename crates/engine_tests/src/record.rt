use crate::counting::range;
use buffer::Buffer;
use engine::{BracketEngine, Engine};
use judging::{Entry, RecordRefusal, RecordedEngine, Untaken, judge_number, record_verdicts};
use std::test::Fail;

fn entry(start: usize, length: usize, verdict: u8) -> Entry {
    Entry {
        text: range(start, length),
        verdict,
    }
}

#[test]
fn the_first_entry_decides(rt: HostRuntime) -> Result<(), Fail> {
    let entries = [
        entry(0, 1, 0),
        entry(2, 1, 7),
        entry(1, 1, 254),
        entry(1, 0, 3),
    ];
    let mut record = RecordedEngine::new(b"aba", &entries)?;
    assert_eq!(rt; judge_number(&mut record, b"a"), 0);
    assert_eq!(rt; judge_number(&mut record, b"b"), 254);
    assert_eq!(rt; judge_number(&mut record, b""), 3);
    assert_eq!(rt; judge_number(&mut record, b"ab"), 255);
    Ok(())
}

fn refusal(whole: &[u8], entries: &[Entry]) -> Option<RecordRefusal> {
    RecordedEngine::new(whole, entries).err()
}

#[test]
fn bad_entries_are_refused(rt: HostRuntime) {
    let entries = [
        entry(0, 3, 1),
        entry(1, 3, 255),
        entry(0, 1, 255),
        entry(usize::MAX, 2, 1),
    ];
    assert_eq!(rt;
        refusal(b"aba", &entries),
        Some(RecordRefusal::Outside { entry: 1 })
    );
    assert_eq!(rt;
        refusal(b"aba", &entries[2..4]),
        Some(RecordRefusal::NoVerdict { entry: 0 })
    );
    assert_eq!(rt;
        refusal(b"aba", &entries[3..4]),
        Some(RecordRefusal::Outside { entry: 0 })
    );
    assert_eq!(rt; refusal(b"aba", &entries[0..1]), None);
}

/// What a record of these entries says of a text.
fn recorded(whole: &[u8], entries: &[Entry], text: &[u8]) -> Result<u8, RecordRefusal> {
    Ok(judge_number(&mut RecordedEngine::new(whole, entries)?, text))
}

#[test]
fn a_record_agrees_with_its_engine(rt: HostRuntime) -> Result<(), Fail> {
    let whole = b"(a)[b\\";
    let texts = [
        range(0, 3),
        range(0, 2),
        range(2, 1),
        range(3, 2),
        range(5, 1),
    ];
    let mut entries = Buffer::new(rt.alloc())?;
    let answer = record_verdicts(&mut BracketEngine, whole, &texts, &mut entries);
    assert_eq!(rt; answer, Ok(()));
    let entries = entries.as_slice();
    assert_eq!(rt; entries.len(), 5);
    assert_eq!(rt; recorded(whole, entries, b"(a)")?, 0);
    assert_eq!(rt; recorded(whole, entries, b"(a")?, 2);
    assert_eq!(rt; recorded(whole, entries, b")")?, 1);
    assert_eq!(rt; recorded(whole, entries, b"[b")?, 3);
    assert_eq!(rt; recorded(whole, entries, b"\\")?, 4);
    assert_eq!(rt; recorded(whole, entries, b"b")?, 255);
    Ok(())
}

#[test]
fn a_fault_of_255_needs_no_entry(rt: HostRuntime) -> Result<(), Fail> {
    let texts = [range(0, 1), range(1, 1)];
    let known = [entry(0, 1, 9)];
    let mut entries = Buffer::new(rt.alloc())?;
    let mut record = RecordedEngine::new(b"ab", &known)?;
    assert_eq!(rt;
        record_verdicts(&mut record, b"ab", &texts, &mut entries),
        Ok(())
    );
    assert_eq!(rt; entries.len(), 1);
    assert_eq!(rt;
        record_verdicts(&mut BracketEngine, b"a", &texts, &mut entries),
        Err(Untaken::Outside { number: 1 })
    );
    assert_eq!(rt; entries.len(), 0);
    Ok(())
}
