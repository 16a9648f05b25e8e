ghost use Rattle.std.specs.Prelude.{◌≡◌};

use engine::{BracketEngine, BracketFault, Engine};
use judging::{Refused, TextRange, judge_all};
use std::test::Fail;

/// An engine around any other, with its meaning, that counts what it is asked.
#[derive(Drop)]
struct Counting<E> {
    inner: E,
    asked: u64,
}

impl<E: Engine> Engine for Counting<E> {
    type Fault = E::Fault;

    ghost verdict = { λ s. E.Engine.verdict s.inner };

    fn judge(&mut self, text: &[u8]) -> Result<(), E::Fault> {
        self.asked = self.asked.saturating_add(1);
        self.inner.judge(text)
    }
}

pub(crate) fn range(start: usize, length: usize) -> TextRange {
    TextRange { start, length }
}

#[test]
fn stops_at_the_first_fault(rt: HostRuntime) {
    let mut engine = Counting {
        inner: BracketEngine,
        asked: 0,
    };
    let texts = [range(0, 3), range(1, 1), range(2, 1), range(0, 1)];
    let answer = judge_all(&mut engine, b"(a)", &texts);
    assert_eq!(rt;
        answer,
        Err(Refused::Faulty {
            number: 2,
            fault: BracketFault::Unopened,
        })
    );
    assert_eq!(rt; engine.asked, 3);
}

#[test]
fn a_text_outside_is_refused_in_its_turn(rt: HostRuntime) {
    let texts = [range(0, 3), range(2, 2), range(0, 1)];
    let answer = judge_all(&mut BracketEngine, b"(a)", &texts);
    assert_eq!(rt; answer, Err(Refused::Outside { number: 1 }));
    assert_eq!(rt; judge_all(&mut BracketEngine, b"(a)", &[]), Ok(()));
    assert_eq!(rt; judge_all(&mut BracketEngine, b"(a)", &texts[0..1]), Ok(()));
}

#[test]
fn a_refusal_prints_its_fault(rt: HostRuntime) -> Result<(), Fail> {
    let refused = Refused::Faulty {
        number: 2,
        fault: BracketFault::Unopened,
    };
    let text = format!(in rt.alloc(); "{refused}")?;
    assert_eq!(rt; text.as_str(), "text 2: a `)` that no `(` opened");
    Ok(())
}
