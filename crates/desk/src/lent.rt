// The calls that are lent their memory in a struct, over a slice for each part: no struct is made of parts of vectors that lie
// behind a `&mut`.
ghost use Rattle.std.specs.Prelude.{◌≡◌, ℕ, ◌+◌, [], take, length};
ghost use Rattle.ranking.specs.Calls.{Took, part_lengths};
ghost use Rattle.run.specs.Files.{RanFile};
ghost use Rattle.run.specs.Loans.{lists};
ghost use Rattle.run.specs.Steps.{Ran, run_check};
ghost use Rattle.search.specs.Answer.{Searched, barring};
ghost use Rattle.search.specs.Arcs.{allowed, weight_at};
ghost use Rattle.search.specs.Choice.{Settles};
ghost use Rattle.search.specs.Space.{KeptIn, Space};
ghost use Rattle.search.specs.State.{Room};
ghost use Rattle.sheet.specs.Calls.{Answered};

use file::{FileFault, Recorded};
use ranking::{Ranking, Taken, take};
use refusal::Refusal;
use run::{Call, Turn, run, run_file};
use search::{Node, Working, best_tree, best_tree_barring};
use sheet::Candidate;
use weight::{Kind, Opens, Root};

// The heaviest tree over the arcs that stand.
pub(crate) fn search_in<K: Kind + Copy>(
    words: usize,
    sets: &[u64],
    weights: &[K],
    held: &[u8],
    nodes: &mut [Node<K>],
    merges: &mut [Node<K>],
    potentials: &mut [Root<K>],
    heads: &mut [u8],
) -> Result<Option<K>, Refusal>
    ensures told { Searched K.Kind.worth K.Kind.ranges words (allowed sets.now held.now) (weight_at K.Kind.worth words weights.now) (Room words (length sets.now) (length weights.now) (length nodes.old) (length merges.old) (length potentials.old)) heads.old heads.new result }
    ensures settled { Settles K.Kind.ranges words (allowed sets.now held.now) (weight_at K.Kind.worth words weights.now) (take words heads.new) result }
    ensures memory { KeptIn words (record { nodes = nodes.old; merges = merges.old; potentials = potentials.old }) (record { nodes = nodes.new; merges = merges.new; potentials = potentials.new }) result }
{
    let working = &mut Working {
        nodes,
        merges,
        potentials,
    };
    best_tree(words, sets, weights, held, working, heads)
}

// The same without the arcs from the barred heads into the first word that is not held.
pub(crate) fn search_barring_in<K: Kind + Copy>(
    words: usize,
    sets: &mut [u64],
    weights: &[K],
    held: &[u8],
    barred: u64,
    nodes: &mut [Node<K>],
    merges: &mut [Node<K>],
    potentials: &mut [Root<K>],
    heads: &mut [u8],
) -> Result<Option<K>, Refusal>
    ensures kept { sets.new ≡ sets.old }
    ensures told { Searched K.Kind.worth K.Kind.ranges words (barring (allowed sets.old held.now) (length held.now + 1) barred) (weight_at K.Kind.worth words weights.now) (Room words (length sets.old) (length weights.now) (length nodes.old) (length merges.old) (length potentials.old)) heads.old heads.new result }
    ensures settled { Settles K.Kind.ranges words (barring (allowed sets.old held.now) (length held.now + 1) barred) (weight_at K.Kind.worth words weights.now) (take words heads.new) result }
    ensures memory { KeptIn words (record { nodes = nodes.old; merges = merges.old; potentials = potentials.old }) (record { nodes = nodes.new; merges = merges.new; potentials = potentials.new }) result }
{
    let working = &mut Working {
        nodes,
        merges,
        potentials,
    };
    best_tree_barring(words, sets, weights, held, barred, working, heads)
}

// Takes a tree of the ranking.
pub(crate) fn take_in<K: Opens + Copy>(
    ranking: &mut Ranking<K>,
    weights: &[K],
    sets: &mut [u64],
    candidates: &mut [Candidate<K>],
    nodes: &mut [Node<K>],
    merges: &mut [Node<K>],
    potentials: &mut [Root<K>],
    space: &mut [u8],
) -> Result<Taken<K>, Refusal>
    ensures { Took K.Kind.worth K.Kind.ranges ranking.old ranking.new (lists weights.now sets.old candidates.old nodes.old merges.old potentials.old) (lists weights.now sets.new candidates.new nodes.new merges.new potentials.new) space.old space.new result }
{
    let working = &mut Working {
        nodes,
        merges,
        potentials,
    };
    take(ranking, weights, sets, candidates, working, space)
}

// Makes the calls on a fresh sheet of so many words.
pub(crate) fn run_in<K: Opens + Copy>(
    words: usize,
    calls: &[Call<K>],
    weights: &mut [K],
    sets: &mut [u64],
    candidates: &mut [Candidate<K>],
    nodes: &mut [Node<K>],
    merges: &mut [Node<K>],
    potentials: &mut [Root<K>],
    turns: &mut [Turn<K>],
) -> Result<(), Refusal>
    ensures { Answered (run_check words (part_lengths (lists weights.old sets.old candidates.old nodes.old merges.old potentials.old)) (length calls.now) (length turns.old)) result ((lists weights.new sets.new candidates.new nodes.new merges.new potentials.new ≡ lists weights.old sets.old candidates.old nodes.old merges.old potentials.old) × (turns.new ≡ turns.old)) (Ran K.Kind.worth K.Kind.ranges words [] calls.now (lists weights.old sets.old candidates.old nodes.old merges.old potentials.old) (lists weights.new sets.new candidates.new nodes.new merges.new potentials.new) turns.old turns.new) }
{
    let mut memory = run::LentMemory {
        weights,
        sets,
        candidates,
        nodes,
        merges,
        potentials,
    };
    run(words, calls, &mut memory, turns)
}

// Reads a file and makes the calls on its sheet.
pub(crate) fn run_file_in<K: Recorded + Copy>(
    file: &[u8],
    calls: &[Call<K>],
    weights: &mut [K],
    sets: &mut [u64],
    candidates: &mut [Candidate<K>],
    nodes: &mut [Node<K>],
    merges: &mut [Node<K>],
    potentials: &mut [Root<K>],
    turns: &mut [Turn<K>],
) -> Result<(), FileFault>
    ensures { RanFile K.format K.Kind.worth K.Kind.ranges file.now calls.now (lists weights.old sets.old candidates.old nodes.old merges.old potentials.old) (lists weights.new sets.new candidates.new nodes.new merges.new potentials.new) turns.old turns.new result }
{
    let mut memory = run::LentMemory {
        weights,
        sets,
        candidates,
        nodes,
        merges,
        potentials,
    };
    run_file(file, calls, &mut memory, turns)
}
