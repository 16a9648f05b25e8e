ghost use Rattle.std.specs.Prelude.{◌≡◌, ◌+◌, ◌<◌, length, Some};
ghost use Rattle.tree_rule.specs.Nodes.{at};
ghost use Rattle.tree.specs.Questions.{Answered, EndOf, Followed, Found, FoundAs, Spelled, boolean_in, find, front, held, integer_in, is_named, kind_in, under};
ghost use Rattle.tree.specs.Values.{Entries, Pairs};

use crate::tree::Tree;
use crate::unanswered::Unanswered;
use tree_rule::{Children, Kind, RawNode};

impl<'a> Tree<'a> {
    /// How many nodes the tree has.
    pub fn len(&self) -> usize
        ensures { result ≡ length self.now.nodes.now }
    {
        self.nodes.len()
    }

    /// The node of this number.
    fn node(&self, node: usize) -> Result<RawNode, Unanswered>
        ensures { Found self.now.nodes.now node result }
    {
        self.nodes.get(node).copied().ok_or(Unanswered::NoSuchNode)
    }

    /// The node of this number, if it is of this kind.
    fn node_as(&self, node: usize, kind: Kind) -> Result<RawNode, Unanswered>
        ensures { FoundAs self.now.nodes.now node kind result }
    {
        let raw = self.node(node)?;
        if !raw.is(kind) {
            return Err(Unanswered::OtherKind);
        }
        Ok(raw)
    }

    /// The number of the first node behind all that a node holds.
    pub fn end(&self, node: usize) -> Result<usize, Unanswered>
        ensures { EndOf self.now.nodes.now node result }
    {
        Ok(self.node(node)?.end as usize)
    }

    /// What a node is.
    pub fn kind(&self, node: usize) -> Result<Kind, Unanswered>
        ensures { Answered self.now.nodes.now self.now.text.now node (λ v. Some (kind_in v)) result }
    {
        let raw = self.node(node)?;
        Kind::try_from(raw.kind).map_err(|_| Unanswered::OtherKind)
    }

    /// Whether a boolean is true.
    pub fn boolean(&self, node: usize) -> Result<bool, Unanswered>
        ensures { Answered self.now.nodes.now self.now.text.now node boolean_in result }
    {
        Ok(self.node_as(node, Kind::Boolean)?.number == 1)
    }

    /// What an integer is.
    pub fn integer(&self, node: usize) -> Result<i64, Unanswered>
        ensures { Answered self.now.nodes.now self.now.text.now node integer_in result }
    {
        Ok(self.node_as(node, Kind::Integer)?.number)
    }

    /// The bytes of a string.
    pub fn text(&self, node: usize) -> Result<&'a [u8], Unanswered>
        ensures { Spelled self.now.nodes.now self.now.text.now node result }
    {
        let raw = self.node(node)?;
        raw.bytes(self.text).ok_or(Unanswered::OtherKind)
    }

    /// The first child of a node, if it has any.
    pub fn first_child(&self, node: usize) -> Result<Option<usize>, Unanswered>
        ensures { Answered self.now.nodes.now self.now.text.now node (λ v. Some (front (held v))) result }
    {
        let end = self.end(node)?;
        Ok((node + 1 < end).then_some(node + 1))
    }

    /// The child of `parent` that follows its child `child`, if there is one more.
    pub fn next_sibling(&self, parent: usize, child: usize) -> Result<Option<usize>, Unanswered>
        ensures { Followed self.now.nodes.now self.now.text.now parent child result }
    {
        let end = self.end(parent)?;
        let next = self.end(child)?;
        Ok((next < end).then_some(next))
    }

    /// The key is this string.
    fn is_key(&self, key: usize, name: &[u8]) -> bool
        ensures { result ≡ is_named self.now.nodes.now self.now.text.now name.now key }
    {
        self.node(key)
            .is_ok_and(|raw| raw.bytes(self.text) == Some(name))
    }

    /// The value under a string key of a map.
    fn value_under(&self, map: usize, name: &[u8]) -> Option<usize>
        requires { map < length self.now.nodes.now }
        ensures { (es : Entries) → Pairs self.now.nodes.now self.now.text.now (map + 1) (at self.now.nodes.now map).end es → find name.now es ≡ result }
    {
        // Written out, since a public function that made them would have to ask for facts of the rule.
        let children = Children {
            nodes: self.nodes,
            next: map + 1,
            end: self.nodes[map].end as usize,
        };
        let mut entries = tree_rule::Entries { children };
        entries
            .find(|(key, _)| self.is_key(*key, name))
            .map(|(_, value)| value)
    }

    /// The value under a string key of a map, or none.
    pub fn get(&self, map: usize, name: &[u8]) -> Result<Option<usize>, Unanswered>
        ensures { Answered self.now.nodes.now self.now.text.now map (under name.now) result }
    {
        self.node_as(map, Kind::Map)?;
        Ok(self.value_under(map, name))
    }
}
