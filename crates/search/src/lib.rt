// The heaviest dependency tree over the arcs that stand, for every kind of weight.
#![tactic(auto)]

ghost use Rattle.std.specs.Prelude.{◌≡◌, ℕ, ◌+◌, ◌*◌, ◌<◌, ◌≤◌, take, length, MatchResult};
ghost use Rattle.refusal.specs.declared.Refusal.{Refusal};
ghost use Rattle.search.specs.Answer.{LineOfWords, FirstRefusal, Searched};
ghost use Rattle.search.specs.Arcs.{allowed, weight_at};
ghost use Rattle.search.specs.Choice.{FoundOnce, LimitedSets, SameSets, SearchesAlike, Settles};
ghost use Rattle.search.specs.Space.{KeptIn, RoomIn, SameParts, space_of};

use crate::graph::Graph;
use crate::whole::heaviest;
use refusal::Refusal;
use weight::Kind;

mod arcs;
mod aside;
mod bits;
mod family;
mod graph;
mod merging;
mod opening;
mod whole;
mod working;

pub use aside::best_tree_barring;
pub use family::Node;
pub use working::Working;

// The first check that fails: the number of words, the memory, the space for the heads.
fn check<K>(
    words: usize,
    sets: &[u64],
    weights: &[K],
    working: &Working<'_, K>,
    heads: &[u8],
) -> Result<(), Refusal>
    ensures { MatchResult result (λ _. LineOfWords words × RoomIn words sets.now weights.now working.now × (words ≤ length heads.now)) (FirstRefusal words (RoomIn words sets.now weights.now working.now) (length heads.now)) }
{
    if words < 1 || words > 40 {
        return Err(Refusal::WordCount);
    }
    if sets.len() < words
        || weights.len() < words * (words + 1)
        || working.nodes.len() < words + 1
        || working.merges.len() < words - 1
        || working.potentials.len() < words + 1
    {
        return Err(Refusal::ShortMemory);
    }
    if heads.len() < words {
        return Err(Refusal::ShortSpace);
    }
    Ok(())
}

/// The heaviest single-root tree of the line over the arcs that stand. Bit h of `sets[d - 1]` is up where the arc from h to d stands,
/// and `weights[(d - 1) * (words + 1) + h]` is its weight. The first words are held, each at its head in `held`.
/// The heads are written to the front of `heads`, and the weight is returned; none where there is no such tree. Which of several heaviest
/// trees it is, the arcs settle (specs/Choice.antt).
pub fn best_tree<K: Kind + Copy>(
    words: usize,
    sets: &[u64],
    weights: &[K],
    held: &[u8],
    working: &mut Working<'_, K>,
    heads: &mut [u8],
) -> Result<Option<K>, Refusal>
    ensures told { Searched K.Kind.worth K.Kind.ranges words (allowed sets.now held.now) (weight_at K.Kind.worth words weights.now) (RoomIn words sets.now weights.now working.old) heads.old heads.new result }
    ensures settled { Settles K.Kind.ranges words (allowed sets.now held.now) (weight_at K.Kind.worth words weights.now) (take words heads.new) result }
    ensures parts { SameParts working.old working.new }
    ensures memory { KeptIn words (space_of working.old) (space_of working.new) result }
{
    check(words, sets, weights, working, heads)?;
    let graph = Graph {
        words,
        sets,
        held,
        weights,
    };
    if !graph.all_entries() {
        return Ok(None);
    }
    let Some(found) = heaviest(
        &graph,
        &mut working.nodes[..words + 1],
        &mut working.merges[..words - 1],
        &mut working.potentials[..words + 1],
    ) else {
        return Ok(None);
    };
    let total = graph.tree_weight(&found);
    if total.place() != -1 {
        return Ok(None);
    }
    heads[..words].copy_from_slice(&found[..words]);
    Ok(Some(total.weight()))
}

/// What a search chooses among equals the arcs alone settle, for every kind: two searches of the same arcs find the same heads, or both
/// none, and the sets that they merge are the same, one after the other.
pub fn laws<K: Kind>()
    ensures alike { SearchesAlike K.Kind.worth K.Kind.ranges }
    ensures once { FoundOnce }
    ensures sets { SameSets }
    ensures limited { LimitedSets }
{}
