// The ranking of a sheet's trees: each take hands out the heaviest that is still untaken, up to fifty. Which of equal trees comes when is
// settled by the arcs (specs/Order.antt).
#![tactic(auto)]

ghost use Rattle.std.specs.Prelude.{◌≡◌, ℕ, suc, ◌<◌, ◌≤◌, List, [], length, IfOk};
ghost use Rattle.ranking.specs.Calls.{take_check, Took};
ghost use Rattle.ranking.specs.Memory.{MemoryParts, memory_of, StandsFor};
ghost use Rattle.ranking.specs.Order.{OneOrder};
ghost use Rattle.ranking.specs.Steps.{NextTree, RoomFor};
ghost use Rattle.ranking.specs.Takes.{FirstIsHeaviest, Settled};
ghost use Rattle.search.specs.Space.{SpaceKeptBeyond, RoomIn, SameParts, space_of};
ghost use Rattle.sheet.specs.Arcs.{Arcs, HoldsArcs};
ghost use Rattle.sheet.specs.Calls.{checked};

use refusal::Refusal;
use search::Working;
use sheet::{Candidate, Lengths, Sheet};
use weight::{Kind, Opens};

mod splitting;
mod state;

pub use state::{Ranking, Taken};

/// Turns an open sheet into a ranking with no tree taken.
pub fn begin<K: Kind>(sheet: Sheet<K>) -> Ranking<K>
    ensures words { result.sheet.words ≡ sheet.words }
    ensures law { (memory : MemoryParts K) (arcs : Arcs K) → HoldsArcs K.Kind.worth K.Kind.ranges sheet.words memory.weights memory.sets arcs → StandsFor K.Kind.worth K.Kind.ranges result memory arcs [] }
{
    Ranking {
        sheet,
        taken: 0,
        waiting: 0,
    }
}

/// Turns a ranking back into its open sheet.
pub fn end<K: Kind>(ranking: Ranking<K>) -> Sheet<K>
    ensures words { result.words ≡ ranking.sheet.words }
    ensures law { (memory : MemoryParts K) (arcs : Arcs K) (ts : List (List ℕ)) → StandsFor K.Kind.worth K.Kind.ranges ranking memory arcs ts → HoldsArcs K.Kind.worth K.Kind.ranges result.words memory.weights memory.sets arcs }
{
    let Ranking {
        sheet,
        taken: _,
        waiting: _,
    } = ranking;
    sheet
}

impl<K> Ranking<K> {
    // Whether a take passes the checks that come before a tree is sought.
    fn take_check(&self, lengths: Lengths, space: usize) -> Result<(), Refusal>
        ensures answer { result ≡ checked (take_check self.now.sheet.words lengths space self.now.taken) }
        ensures room { IfOk result (λ _. RoomFor self.now.sheet.words lengths space self.now.taken) }
    {
        if self.sheet.too_short(lengths) {
            return Err(Refusal::ShortMemory);
        }
        if space < self.sheet.words() {
            return Err(Refusal::ShortSpace);
        }
        if self.taken == 50 {
            return Err(Refusal::Fifty);
        }
        Ok(())
    }

    // Counts one tree more; returns how many were handed out.
    fn count_one(&mut self, waiting: usize) -> usize
        requires left { self.old.taken < 50 }
        requires few { waiting ≤ 50 }
        ensures count { result ≡ suc self.old.taken }
        ensures taken { self.new.taken ≡ result }
        ensures waits { self.new.waiting ≡ waiting }
        ensures words { self.new.sheet.words ≡ self.old.sheet.words }
    {
        let count = self.taken + 1;
        self.taken = count;
        self.waiting = waiting;
        count
    }
}

impl<K: Kind + Copy> Ranking<K> {
    // The next tree, and how many candidates wait then.
    fn next_tree(
        &self,
        weights: &[K],
        sets: &mut [u64],
        candidates: &mut [Candidate<K>],
        working: &mut Working<'_, K>,
    ) -> Result<(Candidate<K>, usize), Refusal>
        requires slots { 50 < length candidates.old }
        requires room { RoomIn self.now.sheet.words sets.old weights.now working.old }
        ensures sets { sets.new ≡ sets.old }
        ensures next { NextTree K.Kind.worth K.Kind.ranges self.now weights.now sets.old candidates.old candidates.new result }
        ensures parts { SameParts working.old working.new }
        ensures listed { SpaceKeptBeyond self.now.sheet.words (space_of working.old) (space_of working.new) }
    {
        if self.taken == 0 {
            let first = self
                .seek(weights, sets, &[], 0, working)
                .ok_or(Refusal::NoTree)?;
            return Ok((first, 0));
        }
        // the place behind those that wait is that of the tree taken last
        let current = candidates[50];
        let more = self.split(&current, candidates, weights, sets, working);
        let Ok(next) = queue::pop(candidates, more) else {
            return Err(Refusal::NoMore);
        };
        Ok((next, more - 1))
    }
}

/// Hands out the heaviest untaken tree, of several the next in order: its heads go to the front of the space.
pub fn take<K: Opens + Copy>(
    ranking: &mut Ranking<K>,
    weights: &[K],
    sets: &mut [u64],
    candidates: &mut [Candidate<K>],
    working: &mut Working<'_, K>,
    space: &mut [u8],
) -> Result<Taken<K>, Refusal>
    ensures took { Took K.Kind.worth K.Kind.ranges ranking.old ranking.new (memory_of weights.now sets.old candidates.old working.old) (memory_of weights.now sets.new candidates.new working.new) space.old space.new result }
    ensures parts { SameParts working.old working.new }
{
    // Not by `Spare::lengths`: a `Spare` would have to be made of these very slices first, to say the same six lengths.
    let lengths = Lengths {
        weights: weights.len(),
        sets: sets.len(),
        candidates: candidates.len(),
        nodes: working.nodes.len(),
        merges: working.merges.len(),
        potentials: working.potentials.len(),
    };
    ranking.take_check(lengths, space.len())?;
    let words = ranking.sheet.words();
    let (x, waiting) = ranking.next_tree(weights, sets, candidates, working)?;
    candidates[50] = x;
    let count = ranking.count_one(waiting);
    space[..words].copy_from_slice(&x.heads[..words]);
    Ok(Taken {
        weight: x.weight,
        count,
    })
}

/// What follows from what a take tells, for every kind: the first tree is a heaviest; an answer is settled by the worths of the arcs that
/// stand and by the trees taken; and there is one order in which a sheet's trees come, which those worths settle.
pub fn laws<K: Kind>()
    ensures first { (n : ℕ) (arcs : Arcs K) → FirstIsHeaviest K.Kind.worth n arcs }
    ensures settled { (n : ℕ) → Settled K.Kind.worth n }
    ensures order { (n : ℕ) → OneOrder K.Kind.worth n }
{}
