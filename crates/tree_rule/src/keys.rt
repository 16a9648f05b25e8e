ghost use Rattle.std.specs.Prelude.{◌≡◌, ◌<◌, length, Decides};
ghost use Rattle.std.specs.List.{AllByRecursion};
ghost use Rattle.tree_rule.specs.Nodes.{bytes};
ghost use Rattle.tree_rule.specs.Rule.{Apart, Equal, Lies};

use crate::node::{Kind, RawNode};
use crate::sound::Sound;

impl<'a> Sound<'a> {
    /// The bytes of a string, which is known to lie in the text: each key of a map is asked for as often as there are others.
    fn bytes_of(&self, node: RawNode) -> &'a [u8]
        requires is_string { node.kind ≡ 3 }
        requires lies { Lies node self.now.text.now }
        ensures { result.now ≡ bytes node self.now.text.now }
    {
        let start = node.place as usize;
        &self.text[start..start + node.length as usize]
    }

    /// Both keys are strings, or both integers, and they are equal.
    fn is_equal(&self, key: usize, other: usize) -> bool
        requires key_in_bounds { key < length self.now.nodes.now }
        requires other_in_bounds { other < length self.now.nodes.now }
        ensures { Decides result (Equal self.now.nodes.now self.now.text.now key other) }
    {
        let (a, b) = (self.nodes[key], self.nodes[other]);
        if a.is(Kind::String) && b.is(Kind::String) {
            return self.bytes_of(a) == self.bytes_of(b);
        }
        a.is(Kind::Integer) && b.is(Kind::Integer) && a.number == b.number
    }

    /// No later key equals this one.
    fn is_new(&self, key: usize, later: &[u32]) -> bool
        requires key_in_bounds { key < length self.now.nodes.now }
        requires later_in_bounds { AllByRecursion (λ k. k < length self.now.nodes.now) later.now }
        ensures { Decides result (AllByRecursion (λ l. Equal self.now.nodes.now self.now.text.now key l → ⊥) later.now) }
    {
        later
            .iter()
            .all(|other| !self.is_equal(key, *other as usize))
    }

    /// No two of the keys are equal: each is compared with each.
    pub(crate) fn is_apart(&self, keys: &[u32]) -> bool
        requires keys_in_bounds { AllByRecursion (λ k. k < length self.now.nodes.now) keys.now }
        ensures { Decides result (Apart (Equal self.now.nodes.now self.now.text.now) keys.now) }
    {
        let mut left = keys;
        while let Some((key, later)) = left.split_first() {
            if !self.is_new(*key as usize, later) {
                return false;
            }
            left = later;
        }
        true
    }
}
