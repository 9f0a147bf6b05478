// What stands on a sheet, kept apart from the sheet's own memory.
ghost use Rattle.std.specs.Prelude.{◌≡◌, ◌<◌, vec_len};

use refusal::Refusal;
use std::alloc::{AllocError, Global};
use tree::check_heads;
use weight::Kind;

/// Which arcs stand, each with its weight, told from the puts and strikes alone.
#[derive(Drop)]
pub struct Plain<K> {
    pub words: usize,
    arcs: Vec<Option<K>>,
    ghost places: { vec_len arcs ≡ 1681 },
}

// The place of an arc.
fn place(head: usize, dependent: usize) -> usize
    ensures { result < 1681 }
{
    (head % 41) * 41 + dependent % 41
}

impl<K: Kind + Copy> Plain<K> {
    /// No words and no arcs.
    pub fn new(heap: Global) -> Result<Plain<K>, AllocError> {
        Ok(Plain {
            words: 0,
            arcs: vec![in heap; None; 1681]?,
        })
    }

    /// A line of so many words with every arc absent.
    pub fn reset(&mut self, words: usize) {
        self.words = words;
        self.arcs.fill(None);
    }

    // Whether an arc of the line has these ends, or which refusal they call for.
    fn check(&self, head: usize, dependent: usize) -> Result<(), Refusal> {
        if dependent < 1 || self.words < dependent {
            return Err(Refusal::NoDependent);
        }
        if self.words < head {
            return Err(Refusal::HeadAbove);
        }
        if head == dependent {
            return Err(Refusal::SelfLoop);
        }
        Ok(())
    }

    /// Puts an arc, or tells which refusal the sheet should tell.
    pub fn put(&mut self, head: usize, dependent: usize, weight: K) -> Result<(), Refusal> {
        self.check(head, dependent)?;
        if !weight.entry() {
            return Err(Refusal::NoEntry);
        }
        self.arcs[place(head, dependent)] = Some(weight);
        Ok(())
    }

    /// Strikes an arc, or tells which refusal the sheet should tell.
    pub fn strike(&mut self, head: usize, dependent: usize) -> Result<(), Refusal> {
        self.check(head, dependent)?;
        let arc = self.arcs[place(head, dependent)].take();
        arc.map(drop).ok_or(Refusal::AbsentArc)
    }

    /// The weight of a list of heads, if it is a single-root tree of the sheet.
    pub fn weigh(&self, heads: &[u8]) -> Option<K> {
        if heads.len() != self.words || check_heads(heads).is_err() {
            return None;
        }
        let mut arcs = (1..).zip(heads);
        arcs.try_fold(K::nothing(), |sum, (dependent, head)| {
            let weight = self.arcs[place(usize::from(*head), dependent)]?;
            Some(sum.sum(&weight))
        })
    }
}
