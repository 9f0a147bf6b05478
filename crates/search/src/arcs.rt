// The best of the arcs into a set of words.
ghost use Rattle.std.specs.Prelude.{◌≡◌, ℕ, ◌+◌, ◌^◌, ◌<◌, ◌≤◌, true, length};
ghost use Rattle.search.specs.Arcs.{InLine, stands_in, arc_in, potential, Best, better_of, HeadArc, SetArc, with_potential};
ghost use Rattle.tree.specs.Chains.{Word};
ghost use Rattle.weight.specs.Worth.{Within};
ghost use Rattle.word_set.specs.Bits.{in_set};

use crate::graph::Graph;
use weight::{Kind, Root};
use word_set::{holds, without};

// An arc into a set, with its weight over the root layer and the potential of its word.
#[derive(Clone, Copy)]
pub(crate) struct Entering<K> {
    pub(crate) from: usize,
    pub(crate) to: usize,
    pub(crate) value: Root<K>,
}

// The one that is worth more, of equals the first.
fn better<K: Kind + Copy>(a: Option<Entering<K>>, b: Option<Entering<K>>) -> Option<Entering<K>>
    ensures { result ≡ better_of K.Kind.worth a b }
{
    match (a, b) {
        (None, _) => b,
        (Some(_), None) => a,
        (Some(x), Some(y)) => { if y.value.at_most(&x.value) { a } else { b } }
    }
}

impl<K: Kind + Copy> Graph<'_, K> {
    // The best arc into a word from some heads, with the potential of the word.
    fn best_arc(&self, to: usize, heads: u64, potentials: &[Root<K>]) -> Option<Entering<K>>
        requires to { Word self.now.words to }
        requires heads { InLine self.now.words heads }
        requires small { (h : ℕ) → in_set heads h ≡ true → Within (2 ^ 20) (arc_in K.Kind.worth self.now h to) }
        requires room { to < length potentials.now }
        requires add { Within (2 ^ 30) (potential K.Kind.worth potentials.now to) }
        ensures { Best K.Kind.worth (HeadArc heads to) (with_potential (arc_in K.Kind.worth self.now) (potential K.Kind.worth potentials.now)) result }
    {
        let from = self.best_head(to, heads)?;
        let value = self.arc(from, to).sum(&potentials[to]);
        Some(Entering { from, to, value })
    }

    // The best arc into the set from outside, with the potential of its word.
    pub(crate) fn best_into(&self, potentials: &[Root<K>], inside: u64) -> Option<Entering<K>>
        requires room { self.now.words < length potentials.now }
        requires small { (h d : ℕ) → Word self.now.words d → h ≤ self.now.words → stands_in self.now h d ≡ true → Within (2 ^ 20) (arc_in K.Kind.worth self.now h d) }
        requires added { (d : ℕ) → Word self.now.words d → Within (2 ^ 30) (potential K.Kind.worth potentials.now d) }
        ensures { Best K.Kind.worth (SetArc self.now.words (self.now.words + 1) (stands_in self.now) inside) (with_potential (arc_in K.Kind.worth self.now) (potential K.Kind.worth potentials.now)) result }
    {
        let mut best: Option<Entering<K>> = None;
        // by the word and not by the potentials' items: the word asks for its heads and its arc too
        for to in 1..self.words + 1 {
            if holds(inside, to) {
                let heads = without(self.open_heads(to), inside);
                best = better(best, self.best_arc(to, heads, potentials));
            }
        }
        best
    }
}
