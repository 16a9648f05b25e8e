ghost use Rattle.std.specs.Prelude.{◌≡◌, ◌+◌, ◌^◌, ◌<◌, ◌≤◌, length};
ghost use Rattle.tokens.specs.Classes.{closes, opened, stepped};
ghost use Rattle.tokens.specs.Posix.{is_escaped, passed};
ghost use Rattle.tokens.specs.Tokens.{class_length, closed_in, is_closed, newline_in};

/// Where the walk through a class stands.
#[derive(Clone, Copy)]
pub enum ClassState {
    /// right behind the `[` that opens the class
    Start,
    /// right behind `[^`
    Negated,
    Inside,
    /// behind a backslash that is not escaped itself
    Escaped,
}

/// Walks the bytes of a class, from behind its `[`.
#[derive(Clone, Copy)]
pub struct ClassWalker {
    state: ClassState,
    negated: bool,
    /// how many brackets are open inside the class
    depth: usize,
    /// the class itself, and no bracket in it, has a `\n`
    newline: bool,
}

impl ClassWalker {
    pub(crate) fn new() -> Self
        ensures { result ≡ opened }
    {
        ClassWalker {
            state: ClassState::Start,
            negated: false,
            depth: 0,
            newline: false,
        }
    }

    /// Goes on by one byte, and says whether it closes the class.
    pub(crate) fn step(&mut self, byte: u8) -> bool
        requires { self.old.depth + 1 < 2 ^ 64 }
        ensures closing { result ≡ closes self.old byte }
        ensures after { self.new ≡ stepped self.old byte }
    {
        // One table of state and byte, as the definition has it; a closure for each state would say it in four places.
        match (self.state, byte) {
            (ClassState::Escaped, b'n') => {
                self.newline = self.newline || (!self.negated && self.depth == 0);
                self.state = ClassState::Inside;
            }
            (ClassState::Escaped, _) => self.state = ClassState::Inside,
            (_, b'\\') => self.state = ClassState::Escaped,
            (ClassState::Start, b'^') => {
                self.negated = true;
                self.state = ClassState::Negated;
            }
            (_, b'[') => {
                self.depth += 1;
                self.state = ClassState::Inside;
            }
            (ClassState::Inside, b']') => {
                if self.depth == 0 {
                    return true;
                }
                self.depth -= 1;
            }
            (_, _) => self.state = ClassState::Inside,
        }
        false
    }

    /// The next byte is escaped.
    pub(crate) fn is_escaped(&self) -> bool
        ensures { result ≡ is_escaped self.now.state }
    {
        matches!(self.state, ClassState::Escaped)
    }

    /// Goes on behind a bracket that is opened and closed inside the class.
    pub(crate) fn pass_bracket(&mut self)
        ensures { self.new ≡ passed self.old }
    {
        self.state = ClassState::Inside;
    }
}

/// What a walk through a class tells.
#[derive(Clone, Copy)]
pub struct Extent {
    pub length: usize,
    pub matches_newline: bool,
    /// a `]` closes the class; else the text ends in it
    pub closed: bool,
}

/// The extent of the class whose `[` stands right before `behind`; that `[` is not counted.
pub(crate) fn class_extent(behind: &[u8]) -> Extent
    ensures length { result.length ≡ class_length opened behind.now }
    ensures within { result.length ≤ length behind.now }
    ensures newline { result.matches_newline ≡ newline_in opened behind.now }
    ensures closed { result.closed ≡ closed_in opened behind.now }
{
    let mut walker = ClassWalker::new();
    for (before, byte) in behind.iter().enumerate() {
        if walker.step(*byte) {
            return Extent {
                length: before + 1,
                matches_newline: walker.newline,
                closed: true,
            };
        }
    }
    Extent {
        length: behind.len(),
        matches_newline: walker.newline,
        closed: false,
    }
}

/// Whether a `]` closes the class with this text, from its `[` on.
pub fn class_is_closed(class: &[u8]) -> bool
    ensures { result ≡ is_closed class.now }
{
    match class {
        [_, behind @ ..] => class_extent(behind).closed,
        [] => false,
    }
}
