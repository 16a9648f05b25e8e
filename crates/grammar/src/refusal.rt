ghost use Rattle.std.specs.Prelude.{◌≡◌};
ghost use Rattle.grammar.specs.Refusals.{refusal_number};

/// A key that a map lacks.
#[derive(Clone, Copy, PartialEq, Eq, Debug)]
pub enum Key {
    Contexts,
    Scope,
    Match,
    Escape,
}

/// Why a tree is refused, whatever set it is offered to. A `usize` is the number of a node, `F` an engine's fault.
#[derive(Clone, Copy, PartialEq, Eq, Debug)]
pub enum Refusal<F> {
    FallbackNotUtf8,
    WrongKind(usize),
    MissingKey(Key, usize),
    TooManyAtoms(usize),
    ReservedName(usize),
    TooLong(usize),
    MainMissing,
    EngineFault(F, usize),
}

impl<F: Copy> Refusal<F> {
    /// The number under which a refusal is told to those who do not know its type.
    // Written out and no discriminant: the variants carry nodes and faults.
    pub fn number(self) -> u8
        ensures { result ≡ refusal_number self }
    {
        match self {
            Refusal::FallbackNotUtf8 => 2,
            Refusal::WrongKind(_) => 3,
            Refusal::MissingKey(_, _) => 4,
            Refusal::TooManyAtoms(_) => 5,
            Refusal::ReservedName(_) => 6,
            Refusal::TooLong(_) => 7,
            Refusal::MainMissing => 8,
            Refusal::EngineFault(_, _) => 10,
        }
    }
}
