// Callers that know the sheet, its reader and its ranking by their public contracts alone.
#![tactic(auto)]

ghost use Rattle.std.specs.Prelude.{◌≡◌};
ghost use Rattle.by_contract.specs.Law.{AsOne, OfFile};
ghost use Rattle.ranking.specs.Calls.{part_lengths};
ghost use Rattle.sheet.specs.Calls.{Answered, open_check};

use file::{FileFault, Recorded, read};
use ranking::{Ranking, Taken, begin, end, take};
use refusal::Refusal;
use search::{Node, Working};
use sheet::{Candidate, Sheet, Spare, open, put, strike};
use weight::{Opens, Root};

/// What the calls on a line of two words answered, and the bytes that the take was given.
#[derive(Clone, Copy, PartialEq, Eq, Debug)]
pub struct Answers<K> {
    pub first: Result<(), Refusal>,
    pub second: Result<(), Refusal>,
    pub taken: Result<Taken<K>, Refusal>,
    pub heads: [u8; 2],
    pub struck: Result<(), Refusal>,
}

/// Opens a line of two words, gives the arc from the root to the first and that from the first to the second a weight, takes a
/// tree of its ranking, and makes the second arc absent again.
pub fn two_words<K: Opens + Copy>(
    first: K,
    second: K,
    weights: &mut [K],
    sets: &mut [u64],
    candidates: &mut [Candidate<K>],
    nodes: &mut [Node<K>],
    merges: &mut [Node<K>],
    potentials: &mut [Root<K>],
) -> Result<Answers<K>, Refusal>
    ensures { let lent = part_lengths (record { weights = weights.old; sets = sets.old; candidates = candidates.old; nodes = nodes.old; merges = merges.old; potentials = potentials.old }) in Answered (open_check 2 lent) result ((weights.new ≡ weights.old) × (sets.new ≡ sets.old)) (AsOne K.Kind.worth K.Kind.ranges lent first second result weights.new sets.new) }
{
    let spare = Spare {
        candidates,
        nodes,
        merges,
        potentials,
    };
    let sheet = open(2, weights, sets, spare)?;
    let first = put(&sheet, weights, sets, 0, 1, first);
    let second = put(&sheet, weights, sets, 1, 2, second);
    let mut ranking = begin(sheet);
    let mut working = Working {
        nodes,
        merges,
        potentials,
    };
    let mut heads = [0; 2];
    let taken = take(
        &mut ranking,
        weights,
        sets,
        candidates,
        &mut working,
        &mut heads,
    );
    let sheet = end(ranking);
    let struck = strike(&sheet, weights, sets, 1, 2);
    Ok(Answers {
        first,
        second,
        taken,
        heads,
        struck,
    })
}

/// What a take on the sheet of a file answered, and the bytes that it was given.
#[derive(Clone, Copy, PartialEq, Eq, Debug)]
pub struct FirstTaken<K> {
    pub words: usize,
    pub taken: Result<Taken<K>, Refusal>,
    pub heads: [u8; 40],
}

/// Reads a file of the kind and takes the first tree of its ranking; refused just as the reader is.
pub fn first_of_file<K: Recorded + Copy>(
    file: &[u8],
    weights: &mut [K],
    sets: &mut [u64],
    candidates: &mut [Candidate<K>],
    nodes: &mut [Node<K>],
    merges: &mut [Node<K>],
    potentials: &mut [Root<K>],
) -> Result<FirstTaken<K>, FileFault>
    ensures { let lent = part_lengths (record { weights = weights.old; sets = sets.old; candidates = candidates.old; nodes = nodes.old; merges = merges.old; potentials = potentials.old }) in OfFile K.format K.Kind.worth K.Kind.ranges lent file.now result weights.old weights.new sets.old sets.new }
{
    let spare = Spare {
        candidates,
        nodes,
        merges,
        potentials,
    };
    let sheet = read(file, weights, sets, spare)?;
    let words = sheet.words();
    let mut ranking = begin(sheet);
    let mut working = Working {
        nodes,
        merges,
        potentials,
    };
    let mut heads = [0; 40];
    let taken = take(
        &mut ranking,
        weights,
        sets,
        candidates,
        &mut working,
        &mut heads,
    );
    Ok(FirstTaken {
        words,
        taken,
        heads,
    })
}

#[cfg(test)]
mod tests;
