// All trees of a sheet of up to five words, by trying every list of heads.
use bench::{Plain, list, lists};
use ranking::Taken;
use refusal::Refusal;
use std::alloc::{AllocError, Global};
use std::test::Fail;
use weight::{Kind, Score};

// A tree: its heads and its weight.
#[derive(Drop)]
struct Tree<K> {
    heads: [u8; 5],
    weight: K,
}

/// The trees of a sheet that wait to be handed out, and how many were.
#[derive(Drop)]
pub struct Trees<K> {
    waiting: Vec<Tree<K>>,
    handed: usize,
}

impl<K: Kind + Copy> Trees<K> {
    /// All trees of a sheet, none of them handed out.
    pub fn new(heap: Global, plain: &Plain<K>) -> Result<Trees<K>, AllocError> {
        // at most 5 fits a byte
        let words = plain.words.min(5) as u8;
        let mut waiting = Vec::new(heap);
        for number in 0..lists(words) {
            let heads = list(number, words);
            if let Some(weight) = plain.weigh(heads.get(..plain.words).unwrap_or(&[])) {
                waiting.push(Tree { heads, weight })?;
            }
        }
        Ok(Trees { waiting, handed: 0 })
    }

    /// How many trees wait.
    pub fn count(&self) -> usize {
        self.waiting.len()
    }

    /// Whether the next take should hand out a tree, or which refusal it should tell.
    pub fn check(&self) -> Result<(), Refusal> {
        if self.handed == 50 {
            Err(Refusal::Fifty)
        } else if !self.waiting.is_empty() {
            Ok(())
        } else if self.handed == 0 {
            Err(Refusal::NoTree)
        } else {
            Err(Refusal::NoMore)
        }
    }

    /// Hands out the tree with these heads; whether a take may do so now, with this weight and count.
    pub fn hands_out(&mut self, heads: &[u8], taken: &Taken<K>) -> bool {
        let weight = &taken.weight;
        let Some(place) = self
            .waiting
            .iter()
            .position(|tree| tree.heads.starts_with(heads))
        else {
            return false;
        };
        let none_above = self.waiting.iter().all(|tree| tree.weight.at_most(weight));
        let tree = self.waiting.remove(place);
        self.handed = self.handed.saturating_add(1);
        none_above && tree.weight.compare(weight).is_eq() && taken.count == self.handed
    }
}

// Only a heaviest tree, which was not handed out before, is right, with its own weight and count.
#[test]
fn only_a_heaviest_tree_is_right(rt: HostRuntime) -> Result<(), Fail> {
    let heap = rt.alloc();
    let mut plain = Plain::new(heap)?;
    plain.reset(2);
    for (head, dependent, score) in [(0, 1, 10), (0, 2, 8), (1, 2, 3), (2, 1, 4)] {
        assert_eq!(rt; plain.put(head, dependent, Score::new(score)), Ok(()));
    }
    let takes = [
        (&[0, 1], 13, 1, true),
        (&[2, 0], 12, 1, false),
        (&[0, 0], 18, 1, false),
        (&[0, 1], 12, 1, false),
        (&[0, 1], 14, 1, false),
        (&[0, 1], 13, 0, false),
    ];
    for (heads, score, count, right) in takes {
        let mut trees = Trees::new(heap, &plain)?;
        let weight = Score::new(score);
        assert_eq!(rt; trees.hands_out(heads, &Taken { weight, count }), right);
    }
    let mut trees = Trees::new(heap, &plain)?;
    let (weight, count) = (Score::new(13), 1);
    assert!(rt; trees.hands_out(&[0, 1], &Taken { weight, count }));
    assert!(rt; !trees.hands_out(&[0, 1], &Taken { weight, count: 2 }));
    Ok(())
}
