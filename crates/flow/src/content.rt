ghost use Rattle.std.specs.Prelude.{◌≡◌, ◌≢◌, MatchOption};
ghost use Rattle.tree_rule.specs.Kinds.{number_of};
ghost use Rattle.flow.specs.Content.{closing_of, content_kind, node_of, opening_of};

use tree::{Kind, RawNode};

/// What holds other nodes.
#[derive(Clone, Copy)]
pub(crate) enum Group {
    List,
    Map,
}

impl Group {
    /// What opens with this byte.
    pub(crate) fn opened_by(byte: u8) -> Option<Group>
        ensures { MatchOption result ((byte ≢ 91) × (byte ≢ 123)) (λ group. byte ≡ opening_of group) }
    {
        match byte {
            b'[' => Some(Group::List),
            b'{' => Some(Group::Map),
            _ => None,
        }
    }

    /// The byte behind all that a list or a map holds.
    pub(crate) fn closing(self) -> u8
        ensures { result ≡ closing_of self }
    {
        match self {
            Group::List => b']',
            Group::Map => b'}',
        }
    }
}

/// What a node is and holds itself.
#[derive(Clone, Copy)]
pub(crate) enum Content {
    Null,
    Boolean(bool),
    Integer(i64),
    /// the bytes of the text from a place on
    Text { place: u32, length: u32 },
    Group(Group),
}

impl Content {
    fn kind(self) -> Kind
        ensures { number_of result ≡ content_kind self }
    {
        match self {
            Content::Null => Kind::Other,
            Content::Boolean(_) => Kind::Boolean,
            Content::Integer(_) => Kind::Integer,
            Content::Text { .. } => Kind::String,
            Content::Group(Group::List) => Kind::List,
            Content::Group(Group::Map) => Kind::Map,
        }
    }

    /// The node that ends there.
    pub(crate) fn node(self, end: u32) -> RawNode
        ensures { result ≡ node_of self end }
    {
        let number = match self {
            Content::Boolean(value) => i64::from(value),
            Content::Integer(number) => number,
            _ => 0,
        };
        let (place, length) = match self {
            Content::Text { place, length } => (place, length),
            _ => (0, 0),
        };
        RawNode {
            kind: u32::from(self.kind()),
            end,
            place,
            length,
            number,
        }
    }
}
