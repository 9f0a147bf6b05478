// Lines of up to five words, with the memory that a search of them wants.
use bench::{list, lists};
use refusal::Refusal;
use search::{Node, Working, best_tree, best_tree_barring};
use std::alloc::{AllocError, Global};
use tree::check_heads;
use weight::{Kind, Root};
use word_set::{either, holds, only};

/// A line: the sets of heads whose arcs stand, the weights of the arcs, and the working space of a search.
#[derive(Drop)]
pub struct Line<K> {
    pub words: u8,
    pub sets: Vec<u64>,
    weights: Vec<K>,
    nodes: Vec<Node<K>>,
    merges: Vec<Node<K>>,
    potentials: Vec<Root<K>>,
}

impl<K: Kind + Copy> Line<K> {
    /// A line with every arc absent, and working space for so many words.
    pub fn new(heap: Global, words: u8, room: u8) -> Result<Line<K>, AllocError> {
        let nothing = K::nothing();
        let room = usize::from(room);
        Ok(Line {
            words,
            sets: vec![in heap; 0; 5]?,
            weights: vec![in heap; nothing; 30]?,
            nodes: vec![in heap; Node::new(nothing); room + 1]?,
            merges: vec![in heap; Node::new(nothing); room.saturating_sub(1)]?,
            potentials: vec![in heap; <Root<_> as Kind>::nothing(); room + 1]?,
        })
    }

    // The place of the weight of the arc into the word behind so many.
    fn place(&self, head: u8, before: u8) -> usize {
        usize::from(before) * (usize::from(self.words) + 1) + usize::from(head)
    }

    /// Puts an arc.
    pub fn put(&mut self, head: u8, dependent: u8, weight: K) {
        let before = dependent.saturating_sub(1);
        let place = self.place(head, before);
        if let Some(set) = self.sets.get_mut(usize::from(before)) {
            *set = either(*set, only(usize::from(head)));
        }
        if let Some(arc) = self.weights.get_mut(place) {
            *arc = weight;
        }
    }

    /// Draws for each arc of the line whether it stands, and with which weight.
    pub fn draw<F: FnMut() -> Option<K>>(&mut self, mut weight: F)
        requires { F.IsAlwaysCallable weight }
    {
        for dependent in 1..=self.words {
            for head in 0..=self.words {
                if let Some(weight) = weight() {
                    self.put(head, dependent, weight);
                }
            }
        }
    }

    /// The weight of a list of heads, or none where an arc is absent.
    pub fn weigh(&self, heads: &[u8]) -> Option<K> {
        let mut arcs = (0..=255).zip(heads);
        arcs.try_fold(K::nothing(), |sum, (before, head)| {
            let set = self.sets.get(usize::from(before))?;
            let weight = self.weights.get(self.place(*head, before))?;
            holds(*set, usize::from(*head)).then(|| sum.sum(weight))
        })
    }

    /// What the search answers, with the first words held and some heads of the next one barred.
    pub fn search(
        &mut self,
        held: &[u8],
        barred: u64,
        heads: &mut [u8],
    ) -> Result<Option<K>, Refusal> {
        let words = usize::from(self.words);
        let sets = self.sets.as_mut_slice();
        let weights = self.weights.as_slice();
        let working = &mut Working {
            nodes: self.nodes.as_mut_slice(),
            merges: self.merges.as_mut_slice(),
            potentials: self.potentials.as_mut_slice(),
        };
        if barred == 0 {
            best_tree(words, sets, weights, held, working, heads)
        } else {
            best_tree_barring(words, sets, weights, held, barred, working, heads)
        }
    }

    /// The greatest weight of a single-root tree, by trying every list of heads.
    pub fn greatest(&self, held: &[u8], barred: u64) -> Option<K> {
        let trees = (0..lists(self.words)).filter_map(|number| {
            let heads = list(number, self.words);
            let list = heads.get(..usize::from(self.words))?;
            let allowed = check_heads(list).is_ok() && fits(list, held, barred);
            if allowed { self.weigh(list) } else { None }
        });
        trees.reduce(|best, weight| if weight.at_most(&best) { best } else { weight })
    }
}

// Whether the first words have the held heads, and the next one none of those that are barred.
fn fits(heads: &[u8], held: &[u8], barred: u64) -> bool {
    let next = heads.get(held.len());
    heads.starts_with(held) && next.is_none_or(|head| !holds(barred, usize::from(*head)))
}
