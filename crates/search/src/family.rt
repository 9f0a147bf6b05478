// The sets of words that a search has made, and the walk along their heads.
ghost use Rattle.std.specs.Prelude.{◌<◌, ◌≤◌, length};

use crate::arcs::Entering;
use weight::{Kind, Root};
use word_set::{either, holds, only};

/// A set of words, with the arc by which it is best entered.
#[derive(Clone, Copy)]
pub struct Node<K> {
    pub(crate) members: u64,
    pub(crate) arc: Entering<K>,
}

impl<K: Kind> Node<K> {
    ghost use Rattle.std.specs.Prelude.{◌≡◌, ◌∷◌};
    ghost use Rattle.search.specs.State.{view};
    ghost use Rattle.weight.specs.Layers.{root_place};

    /// A record to fill the working space with.
    pub fn new(weight: K) -> Node<K>
        ensures { view K.Kind.worth result ≡ record { members = 0; from = 0; to = 0; value = root_place 0 ∷ K.Kind.worth weight } }
    {
        Node {
            members: 0,
            arc: Entering {
                from: 0,
                to: 0,
                value: Root::new(0, weight),
            },
        }
    }
}

// The records of a search so far: of the root at 0 and the words after it, and of the sets that it made, the oldest first.
#[derive(Drop)]
pub(crate) struct Family<'a, K> {
    pub(crate) words: usize,
    pub(crate) nodes: &'a [Node<K>],
    pub(crate) made: &'a [Node<K>],
    ghost few: { words ≤ 40 },
    ghost nodes_in: { words < length nodes.now },
}

impl<K: Kind + Copy> Family<'_, K> {
    ghost use Rattle.std.specs.Prelude.{◌≡◌, ℕ, suc, ◌^◌, ◌<◌, ◌≤◌, true, length, ◌&&◌, if◌then◌else◌};
    ghost use Rattle.arborescence.specs.Search.{leads};
    ghost use Rattle.arborescence.specs.Sum.{sum_if};
    ghost use Rattle.search.specs.Arcs.{potential};
    ghost use Rattle.search.specs.Family.{entry, rep_of, best_of};
    ghost use Rattle.search.specs.Ring.{Laid, Periodic, Ring};
    ghost use Rattle.search.specs.State.{view, base_in, sets_in, head_in, Walked, Found};
    ghost use Rattle.tree.specs.Chains.{Word};
    ghost use Rattle.weight.specs.Layers.{root_worth};
    ghost use Rattle.weight.specs.Worth.{zeros, plus, minus, Within};
    ghost use Rattle.word_set.specs.Bits.{in_set};

    // The largest set that the word is in.
    fn top(&self, word: usize) -> Node<K>
        requires { word ≤ self.now.words }
        ensures { view K.Kind.worth result ≡ entry (base_in K.Kind.worth self.now) (sets_in K.Kind.worth self.now) word }
    {
        match self
            .made
            .iter()
            .rev()
            .find(|node| holds(node.members, word))
        {
            Some(node) => *node,
            None => self.nodes[word],
        }
    }

    // The head of the word's set.
    fn head(&self, word: usize) -> usize
        requires { word ≤ self.now.words }
        ensures { result ≡ head_in K.Kind.worth self.now word }
    {
        self.top(word).arc.from
    }

    // Walks along the heads from a word to one that is fine, and returns the words on the way; the error is a word that it met twice.
    fn walk(&self, fine: u64, start: usize) -> Result<u64, usize>
        requires start { Word self.now.words start }
        requires heads { (w : ℕ) → Word self.now.words w → head_in K.Kind.worth self.now w ≤ self.now.words }
        requires root { in_set fine 0 ≡ true }
        ensures { Walked self.now.words (head_in K.Kind.worth self.now) fine start result }
    {
        let mut seen = 0;
        let mut word = start;
        'steps: while !holds(fine, word) {
            if holds(seen, word) {
                return Err(word);
            }
            seen = either(seen, only(word));
            word = self.head(word);
        }
        Ok(seen)
    }

    // Walks from each word to the root; the error is a word on the ring that the first way which does not lead there runs into.
    pub(crate) fn walk_all(&self) -> Result<(), usize>
        requires heads { (w : ℕ) → Word self.now.words w → head_in K.Kind.worth self.now w ≤ self.now.words }
        ensures { Found self.now.words (head_in K.Kind.worth self.now) result }
    {
        let mut fine = only(0);
        for start in 1..self.words + 1 {
            fine = either(fine, self.walk(fine, start)?);
        }
        Ok(())
    }

    // The words of the sets of the ring that the word is on.
    pub(crate) fn ring_members(&self, word: usize) -> u64
        requires word { Word self.now.words word }
        requires laid { Laid self.now.words (base_in K.Kind.worth self.now) (sets_in K.Kind.worth self.now) }
        requires ring { Periodic (head_in K.Kind.worth self.now) word }
        ensures ring { Ring self.now.words (base_in K.Kind.worth self.now) (sets_in K.Kind.worth self.now) result }
        ensures here { in_set result word ≡ true }
    {
        let mut members = 0;
        let mut at = word;
        'steps: while !holds(members, at) {
            let node = self.top(at);
            members = either(members, node.members);
            at = node.arc.from;
        }
        members
    }

    // The sum of the values of the sets whose words are members.
    pub(crate) fn total(&self, members: u64) -> Root<K>
        requires laid { Laid self.now.words (base_in K.Kind.worth self.now) (sets_in K.Kind.worth self.now) }
        requires small { (w : ℕ) → Word self.now.words w → Within (2 ^ 26) (best_of (base_in K.Kind.worth self.now) (sets_in K.Kind.worth self.now) w) }
        ensures { root_worth K.Kind.worth result ≡ plus (zeros (suc K.Kind.places)) (sum_if (λ ℓ. leads (rep_of (sets_in K.Kind.worth self.now)) ℓ && in_set members ℓ) (best_of (base_in K.Kind.worth self.now) (sets_in K.Kind.worth self.now)) self.now.words) }
    {
        let mut sum: Root<K> = <Root<_> as Kind>::nothing();
        for word in 1..self.words + 1 {
            if holds(members, word) {
                let node = self.top(word);
                if node.arc.to == word {
                    sum = sum.sum(&node.arc.value);
                }
            }
        }
        sum
    }

    // What each member potentials is raised by the total less its set's value.
    pub(crate) fn raise(&self, members: u64, all: Root<K>, potentials: &mut [Root<K>])
        requires room { self.now.words < length potentials.old }
        requires values { (w : ℕ) → Word self.now.words w → Within (2 ^ 26) (best_of (base_in K.Kind.worth self.now) (sets_in K.Kind.worth self.now) w) }
        requires added { (w : ℕ) → Word self.now.words w → Within (2 ^ 30) (potential K.Kind.worth potentials.old w) }
        requires total { Within (2 ^ 32) (root_worth K.Kind.worth all) }
        ensures { (d : ℕ) → Word self.now.words d → potential K.Kind.worth potentials.new d ≡ (if in_set members d then minus (plus (potential K.Kind.worth potentials.old d) (root_worth K.Kind.worth all)) (best_of (base_in K.Kind.worth self.now) (sets_in K.Kind.worth self.now) d) else potential K.Kind.worth potentials.old d) }
    {
        // by the word and not by the potentials' items: the word asks for its set too
        for word in 1..self.words + 1 {
            if holds(members, word) {
                let node = self.top(word);
                let sum = potentials[word].sum(&all);
                potentials[word] = sum.difference(&node.arc.value);
            }
        }
    }
}
