// The arcs that a search looks at: the line's words, the arcs that stand, the heads that are held, and the arcs' weights.
ghost use Rattle.std.specs.Prelude.{◌+◌, ◌*◌, ◌≤◌, length};

use crate::bits::line;
use weight::{Kind, Root};
use word_set::{both, holds, only, without, words_of};

// The parts that every step of a search reads, lent together.
#[derive(Drop)]
pub(crate) struct Graph<'a, K> {
    pub(crate) words: usize,
    pub(crate) sets: &'a [u64],
    pub(crate) held: &'a [u8],
    pub(crate) weights: &'a [K],
    ghost few: { words ≤ 40 },
    ghost sets_in: { words ≤ length sets.now },
    ghost weights_in: { words * (words + 1) ≤ length weights.now },
}

impl<K: Kind + Copy> Graph<'_, K> {
    ghost use Rattle.std.specs.Prelude.{◌≡◌, ℕ, suc, ◌^◌, true, ◌&&◌, IfSome, nat_le};
    ghost use Rattle.arborescence.specs.Search.{worth_of_heads};
    ghost use Rattle.search.specs.Arcs.{InLine, stands_in, weight_in_graph, arc_in, BestHead, better_head, EntriesInto, AllEntries};
    ghost use Rattle.tree.specs.Chains.{Word, head_of};
    ghost use Rattle.weight.specs.Layers.{root_worth};
    ghost use Rattle.weight.specs.Range.{entry_in};
    ghost use Rattle.weight.specs.Worth.{Within, plus, zeros};
    ghost use Rattle.word_set.specs.Bits.{in_set};

    // The heads on the line from which an arc into the word is looked at: one alone where the word is held.
    pub(crate) fn open_heads(&self, word: usize) -> u64
        requires { Word self.now.words word }
        ensures { (h : ℕ) → in_set result h ≡ (nat_le h self.now.words && stands_in self.now h word) }
    {
        let heads = both(self.sets[word - 1], line(self.words));
        let Some(head) = self.held.get(word - 1) else {
            return heads;
        };
        both(heads, only(usize::from(*head)))
    }

    // The weight of an arc, where it lies.
    pub(crate) fn weight(&self, from: usize, to: usize) -> K
        requires to { Word self.now.words to }
        requires from { from ≤ self.now.words }
        ensures { K.Kind.worth result ≡ weight_in_graph K.Kind.worth self.now from to }
    {
        self.weights[(to - 1) * (self.words + 1) + from]
    }

    // The weight of an arc over the root layer.
    pub(crate) fn arc(&self, from: usize, to: usize) -> Root<K>
        requires to { Word self.now.words to }
        requires from { from ≤ self.now.words }
        ensures { root_worth K.Kind.worth result ≡ arc_in K.Kind.worth self.now from to }
    {
        Root::new(from, self.weight(from, to))
    }

    // Of the best head so far and another the one whose arc into the word weighs more; of equals the one so far.
    fn better_head(&self, to: usize, best: Option<usize>, from: usize) -> usize
        requires to { Word self.now.words to }
        requires from { from ≤ self.now.words }
        requires best { IfSome best (λ b. b ≤ self.now.words) }
        ensures { result ≡ better_head (λ h. weight_in_graph K.Kind.worth self.now h to) best from }
    {
        match best {
            None => from,
            Some(old) => {
                if self.weight(from, to).at_most(&self.weight(old, to)) {
                    old
                } else {
                    from
                }
            }
        }
    }

    // The best of some words as heads of a word, of equals the least.
    fn best_word(&self, to: usize, heads: u64) -> Option<usize>
        requires to { Word self.now.words to }
        requires heads { InLine self.now.words heads }
        ensures { BestHead (in_set heads) (λ h. weight_in_graph K.Kind.worth self.now h to) result }
    {
        let mut best: Option<usize> = None;
        for from in words_of(heads) {
            best = Some(self.better_head(to, best, from));
        }
        best
    }

    // The best of some heads of a word, over the root layer: any word comes before the root.
    pub(crate) fn best_head(&self, to: usize, heads: u64) -> Option<usize>
        requires to { Word self.now.words to }
        requires heads { InLine self.now.words heads }
        ensures { BestHead (in_set heads) (λ h. arc_in K.Kind.worth self.now h to) result }
    {
        let word = self.best_word(to, without(heads, only(0)));
        word.or(holds(heads, 0).then_some(0))
    }

    // Whether the weights of the arcs into a word from some heads are entries.
    fn entries_into(&self, to: usize, heads: u64) -> bool
        requires to { Word self.now.words to }
        requires heads { InLine self.now.words heads }
        ensures { EntriesInto (in_set heads) (λ h. entry_in K.Kind.ranges (weight_in_graph K.Kind.worth self.now h to)) result }
    {
        for from in words_of(heads) {
            if !self.weight(from, to).entry() {
                return false;
            }
        }
        true
    }

    // Whether the weights of all the arcs that are looked at are entries.
    pub(crate) fn all_entries(&self) -> bool
        ensures { AllEntries self.now.words (stands_in self.now) K.Kind.ranges (weight_in_graph K.Kind.worth self.now) result }
    {
        // an `all` over a range that captures the graph is no plainer
        for to in 1..self.words + 1 {
            if !self.entries_into(to, self.open_heads(to)) {
                return false;
            }
        }
        true
    }

    // The weight of the arcs from the words' heads, over the root layer.
    pub(crate) fn tree_weight(&self, heads: &[u8]) -> Root<K>
        requires room { self.now.words ≤ length heads.now }
        requires in_line { (w : ℕ) → Word self.now.words w → head_of heads.now w ≤ self.now.words }
        requires small { (w : ℕ) → Word self.now.words w → Within (2 ^ 20) (arc_in K.Kind.worth self.now (head_of heads.now w) w) }
        ensures { root_worth K.Kind.worth result ≡ plus (zeros (suc K.Kind.places)) (worth_of_heads (arc_in K.Kind.worth self.now) (head_of heads.now) self.now.words) }
    {
        let mut sum: Root<K> = <Root<_> as Kind>::nothing();
        for (i, head) in heads[..self.words].iter().enumerate() {
            let next = self.arc(usize::from(*head), i + 1);
            sum = sum.sum(&next);
        }
        sum
    }
}
