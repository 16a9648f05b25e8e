ghost use Rattle.std.specs.Prelude.{◌≡◌, ◌<◌, length, Decides, MatchResult};
ghost use Rattle.std.specs.List.{AllByRecursion};
ghost use Rattle.tree_rule.specs.Nodes.{at, keys};
ghost use Rattle.tree_rule.specs.Props.{each_holds_prop};
ghost use Rattle.tree_rule.specs.Refusals.{Each, Holds, Refuses};
ghost use Rattle.tree_rule.specs.Rule.{Distinct, Nests};

use crate::children::Entries;
use crate::node::{Kind, MAX_DEPTH};
use crate::refusal::Refusal;
use crate::sound::Sound;
use crate::workspace::Workspace;

/// Sound nodes whose children fill them, a map's being key and value in turn.
#[derive(Clone, Copy)]
pub(crate) struct Whole<'a> {
    pub(crate) sound: Sound<'a>,
    ghost holds: { Each sound.nodes.now (Holds sound.nodes.now) } by { each_holds_prop sound.nodes.now },
}

impl Whole<'_> {
    /// The keys of a map, one after another.
    fn collect_keys(&self, map: usize, work: &mut Workspace)
        requires in_bounds { map < length self.now.sound.nodes.now }
        requires is_map { (at self.now.sound.nodes.now map).kind ≡ 5 }
        ensures items { work.new.keys.items ≡ keys self.now.sound.nodes.now map }
        ensures within { AllByRecursion (λ k. k < length self.now.sound.nodes.now) work.new.keys.items }
    {
        work.keys.clear();
        let entries = Entries {
            children: self.sound.children(map),
        };
        for (key, _) in entries {
            work.keys.push_reserved(key as u32);
        }
    }

    /// A map has neither two equal string keys nor two equal integer keys.
    fn is_distinct(&self, node: usize, work: &mut Workspace) -> bool
        requires { node < length self.now.sound.nodes.now }
        ensures { Decides result (Distinct self.now.sound.nodes.now self.now.sound.text.now node) }
    {
        if !self.sound.nodes[node].is(Kind::Map) {
            return true;
        }
        self.collect_keys(node, work);
        self.sound.is_apart(work.keys.as_slice())
    }

    /// Nodes nest at most 64 deep, the root being at 1.
    pub(crate) fn check_nesting(&self) -> Result<(), Refusal>
        ensures { MatchResult result (λ _. Nests 64 self.now.sound.nodes.now 0) (Refuses self.now.sound.nodes.now self.now.sound.text.now) }
    {
        if !self.sound.nests(0, MAX_DEPTH) {
            return Err(Refusal::TooDeep);
        }
        Ok(())
    }

    /// No map has two equal keys.
    pub(crate) fn check_keys(&self, work: &mut Workspace) -> Result<(), Refusal>
        requires nested { Nests 64 self.now.sound.nodes.now 0 }
        ensures { MatchResult result (λ _. Each self.now.sound.nodes.now (Distinct self.now.sound.nodes.now self.now.sound.text.now)) (Refuses self.now.sound.nodes.now self.now.sound.text.now) }
    {
        // By number, since what is asked of a node is about its place among the others.
        for node in 0..self.sound.nodes.len() {
            if !self.is_distinct(node, work) {
                return Err(Refusal::EqualKeys { node });
            }
        }
        Ok(())
    }
}
