ghost use Rattle.std.specs.Prelude.{◌≡◌, ◌+◌, ◌≤◌, [], ◌∷◌, ◌++◌, length, vec_len, IfOk, MatchResult};
ghost use Rattle.tree.specs.Checked.{Checked};
ghost use Rattle.tree.specs.Meaning.{Means};
ghost use Rattle.flow.specs.Content.{node_of};
ghost use Rattle.flow.specs.Places.{NoRoom};
ghost use Rattle.flow.specs.Steps.{ending_here};

use crate::content::Content;
use crate::misread::Reason;
use std::alloc::Global;
use tree::{MAX_NODES, MAX_TEXT, RawNode, Refusal, Tree, Workspace};

/// The nodes and the text that a document is read into.
// Two vectors side by side, since the rule takes nodes and text so, also from a reader in C.
#[derive(Drop)]
pub struct Arrays {
    pub(crate) nodes: Vec<RawNode>,
    pub(crate) text: Vec<u8>,
    ghost few: { vec_len nodes ≤ 65536 },
    ghost short: { vec_len text ≤ 1048576 },
}

impl Arrays {
    pub fn new(heap: Global) -> Self
        ensures { (result.nodes.items ≡ []) × (result.text.items ≡ []) }
    {
        Arrays {
            nodes: Vec::new(heap),
            text: Vec::new(heap),
        }
    }

    /// The tree that was read, if it is one.
    pub fn tree<'a>(&'a self, work: &mut Workspace) -> Result<Tree<'a>, Refusal>
        ensures answer { Checked self.now.nodes.items self.now.text.items result }
        ensures meaning { IfOk result (λ tree. Means tree.nodes.now tree.text.now) }
    {
        tree::check(self.nodes.as_slice(), self.text.as_slice(), work)
    }

    /// Writes a node that ends behind itself.
    pub(crate) fn push(&mut self, content: Content) -> Result<(), Reason>
        ensures text { self.new.text ≡ self.old.text }
        ensures nodes { MatchResult result (λ _. self.new.nodes.items ≡ self.old.nodes.items ++ node_of content (length self.old.nodes.items + 1) ∷ []) (λ e. NoRoom e) }
    {
        let end = self.nodes.len() + 1;
        if end > MAX_NODES {
            return Err(Reason::TooManyNodes);
        }
        self.nodes
            .push(content.node(end as u32))
            .map_err(|_| Reason::NoMemory)
    }

    /// All nodes behind this one are what it holds.
    pub(crate) fn close(&mut self, node: usize)
        ensures text { self.new.text ≡ self.old.text }
        ensures nodes { self.new.nodes.items ≡ ending_here node self.old.nodes.items }
    {
        let end = self.nodes.len() as u32;
        if let Some(node) = self.nodes.get_mut(node) {
            node.end = end;
        }
    }

    /// Adds bytes of a string to the text.
    pub(crate) fn push_text(&mut self, bytes: &[u8]) -> Result<(), Reason>
        ensures nodes { self.new.nodes ≡ self.old.nodes }
        ensures text { MatchResult result (λ _. self.new.text.items ≡ self.old.text.items ++ bytes.now) (λ e. NoRoom e) }
    {
        if bytes.len() > MAX_TEXT - self.text.len() {
            return Err(Reason::TooMuchText);
        }
        self.text
            .extend_from_slice(bytes)
            .map_err(|_| Reason::NoMemory)
    }
}
