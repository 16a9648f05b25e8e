ghost use Rattle.std.specs.Prelude.{◌≡◌, ◌+◌, ◌^◌, ◌<◌, length, None, Some, MatchResult};
ghost use Rattle.std.specs.Iterator.{at_most};
ghost use Rattle.std.specs.Result.{result_err};
ghost use Rattle.tokens.specs.Reads.{meant};
ghost use Rattle.engine.specs.Brackets.{BracketLaws, bracket_number, bracket_text, depth_after, final_fault, fault_in, leaves};
ghost use Rattle.engine.specs.Units.{NextUnit, units};
ghost use Rattle.engine.specs.declared.bracket.BracketFault.TheVariants.{Unopened};
ghost use Rattle.std.proofs.Common.{rules};

use crate::engine::{Engine, Numbered};
use std::error::Error;
use std::fmt;
use tokens::{Parser, Token, class_is_closed};

/// Why the brackets of a text are wrong.
#[derive(Clone, Copy, PartialEq, Eq, Debug)]
pub enum BracketFault {
    /// a `)` that no `(` opened
    Unopened = 1,
    /// a `(` that no `)` closes
    Unclosed = 2,
    /// a class that no `]` closes
    UnclosedClass = 3,
    /// a backslash at the end, which escapes nothing
    FinalBackslash = 4,
}

impl Numbered for BracketFault {
    ghost numbered = { bracket_number };

    ghost ranged = { Prim.search rules };

    fn number(self) -> u8 {
        self as u8
    }
}

impl fmt::Display for BracketFault {
    ghost output = { λ fault. Some (bracket_text fault) };

    fn fmt<W: fmt::Write>(&self, f: &mut fmt::Formatter<W>) -> fmt::Result {
        f.write_str(match self {
            BracketFault::Unopened => "a `)` that no `(` opened",
            BracketFault::Unclosed => "a `(` that no `)` closes",
            BracketFault::UnclosedClass => "a class that no `]` closes",
            BracketFault::FinalBackslash => "a backslash at the end",
        })
    }
}

impl Error for BracketFault {}

/// The units of a text: its tokens, but comments are not known.
#[derive(Clone, Copy)]
struct Units<'a> {
    parser: Parser<'a>,
}

impl<'a> Units<'a> {
    fn of(text: &'a [u8]) -> Self
        ensures { result.parser.rest.now ≡ text.now }
    {
        Units {
            parser: Parser::new(text),
        }
    }
}

impl<'a> Iterator for Units<'a> {
    type Item = Token<'a>;

    ghost next_gives = { λ before unit after. NextUnit unit before.parser.rest.now after.parser.rest.now };

    ghost remaining = { λ left. at_most (length left.parser.rest.now) };

    #[tactic(auto, using(crate::proofs::Units::taken_opening, crate::proofs::Units::next_token))]
    fn next(&mut self) -> Option<Token<'a>> {
        if self.parser.opens_comment() {
            self.parser.next();
            return Some(Token::Plain(b'('));
        }
        self.parser.token()
    }
}

/// How many groups are open behind a unit, of `depth` before it; none if it closes one that nothing opened.
fn depth_after(depth: usize, unit: Token) -> Option<usize>
    requires { depth + 1 < 2 ^ 64 }
    ensures { result ≡ depth_after depth (meant unit.entry) }
{
    match unit {
        Token::Plain(b'(') => Some(depth + 1),
        Token::Plain(b')') => depth.checked_sub(1),
        _ => Some(depth),
    }
}

/// The fault of a text that ends with this unit and is right otherwise.
fn fault_at_end(unit: Token) -> Option<BracketFault>
    ensures { result ≡ leaves (meant unit.entry) }
{
    match unit {
        Token::Class { text, .. } if !class_is_closed(text) => Some(BracketFault::UnclosedClass),
        Token::FinalBackslash => Some(BracketFault::FinalBackslash),
        _ => None,
    }
}

/// What is left open behind the units that were read.
#[derive(Clone, Copy)]
struct LeftOpen {
    /// how many groups
    depth: usize,
    /// what the last unit leaves, if the text ends with it
    ending: Option<BracketFault>,
}

impl LeftOpen {
    /// Behind one unit more.
    fn behind(self, unit: Token) -> Result<Self, BracketFault>
        requires { self.depth + 1 < 2 ^ 64 }
        ensures { MatchResult result
            (λ after. (depth_after self.depth (meant unit.entry) ≡ Some after.depth) × (after.ending ≡ leaves (meant unit.entry)))
            (λ fault. (depth_after self.depth (meant unit.entry) ≡ None) × (fault ≡ Unopened)) }
    {
        let depth = depth_after(self.depth, unit).ok_or(BracketFault::Unopened)?;
        let ending = fault_at_end(unit);
        Ok(LeftOpen { depth, ending })
    }

    /// The answer if the text ends here.
    fn answer(self) -> Result<(), BracketFault>
        ensures { result_err result ≡ final_fault self.depth self.ending }
    {
        if self.depth > 0 {
            return Err(BracketFault::Unclosed);
        }
        self.ending.map_or(Ok(()), Err)
    }
}

/// Finds the first fault in the brackets of a text.
#[tactic(auto, using(crate::proofs::Laws::bracket_laws))]
pub fn check_brackets(text: &[u8]) -> Result<(), BracketFault>
    ensures fault { result_err result ≡ fault_in (units text.now) }
    ensures laws { BracketLaws }
{
    let mut open = LeftOpen {
        depth: 0,
        ending: None,
    };
    for unit in Units::of(text) {
        open = open.behind(unit)?;
    }
    open.answer()
}

/// The engine that looks at brackets and escapes alone.
#[derive(Clone, Copy)]
pub struct BracketEngine;

impl Engine for BracketEngine {
    type Fault = BracketFault;

    ghost verdict = { λ _ text. fault_in (units text) };

    fn judge(&mut self, text: &[u8]) -> Result<(), BracketFault> {
        check_brackets(text)
    }
}
