ghost use Rattle.std.specs.Prelude.{◌≡◌, Decides, Some};
ghost use Rattle.tree_rule.specs.Kinds.{Names, number_of};
ghost use Rattle.tree_rule.specs.Rule.{Read};
ghost use Rattle.tree_rule.specs.Words.{kind_word, unknown_words};

use std::error::Error;
use std::fmt;

/// The most nodes that a tree has.
pub const MAX_NODES: usize = 65_536;

/// The most bytes of text that a tree has.
pub const MAX_TEXT: usize = 1_048_576;

/// How deep nodes nest at most; the root is at 1.
pub const MAX_DEPTH: usize = 64;

/// A node as it is handed in: plain numbers, of which nothing is known.
// The C interface wants plain numbers: a reader in C writes them, and nobody vouches that they name a kind.
#[repr(C)]
#[derive(Clone, Copy, PartialEq, Eq, Debug)]
pub struct RawNode {
    /// 0 other, 1 boolean, 2 integer, 3 string, 4 list, 5 map
    pub kind: u32,
    /// the number of the first node behind all that this one holds
    pub end: u32,
    /// where a string begins in the text
    pub place: u32,
    /// how many bytes a string has
    pub length: u32,
    /// what an integer is; 0 or 1 for a boolean
    pub number: i64,
}

impl RawNode {
    /// Whether the node is of this kind.
    pub fn is(self, kind: Kind) -> bool
        ensures { Decides result (self.kind ≡ number_of kind) }
    {
        self.kind == u32::from(kind)
    }

    /// The bytes of a string, if the node is one and lies in the text.
    pub fn bytes<'a>(self, text: &'a [u8]) -> Option<&'a [u8]>
        ensures { Read self text.now result }
    {
        if !self.is(Kind::String) {
            return None;
        }
        let start = self.place as usize;
        text.get(start..start + self.length as usize)
    }
}

/// What a node is.
#[derive(Clone, Copy, PartialEq, Eq, Debug)]
pub enum Kind {
    Other,
    Boolean,
    Integer,
    String,
    List,
    Map,
}

/// A number that no kind has.
#[derive(Clone, Copy, PartialEq, Eq, Debug)]
pub struct UnknownKind(pub u32);

impl TryFrom<u32> for Kind {
    type Error = UnknownKind;

    ghost try_from_gives = { Names };

    fn try_from(number: u32) -> Result<Self, UnknownKind> {
        match number {
            0 => Ok(Kind::Other),
            1 => Ok(Kind::Boolean),
            2 => Ok(Kind::Integer),
            3 => Ok(Kind::String),
            4 => Ok(Kind::List),
            5 => Ok(Kind::Map),
            _ => Err(UnknownKind(number)),
        }
    }
}

impl From<Kind> for u32 {
    ghost from_gives = { λ kind number. number ≡ number_of kind };

    fn from(kind: Kind) -> u32 {
        match kind {
            Kind::Other => 0,
            Kind::Boolean => 1,
            Kind::Integer => 2,
            Kind::String => 3,
            Kind::List => 4,
            Kind::Map => 5,
        }
    }
}

impl fmt::Display for Kind {
    ghost output = { λ kind. Some (kind_word kind) };

    fn fmt<W: fmt::Write>(&self, f: &mut fmt::Formatter<W>) -> fmt::Result {
        f.write_str(match self {
            Kind::Other => "other",
            Kind::Boolean => "boolean",
            Kind::Integer => "integer",
            Kind::String => "string",
            Kind::List => "list",
            Kind::Map => "map",
        })
    }
}

impl fmt::Display for UnknownKind {
    ghost output = { λ e. Some (unknown_words e) };

    fn fmt<W: fmt::Write>(&self, f: &mut fmt::Formatter<W>) -> fmt::Result {
        write!(f, "no kind has the number {}", self.0)
    }
}

impl Error for UnknownKind {}
