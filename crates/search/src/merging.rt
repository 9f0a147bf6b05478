// Rings of heads are merged into sets until every word's heads lead to the root.
ghost use Rattle.std.specs.Prelude.{◌≡◌, ℕ, ◌+◌, ◌<◌, ◌≤◌, [], take, length, MatchOption};
ghost use Rattle.search.specs.Family.{from_of, OnFirstWay};
ghost use Rattle.search.specs.Arcs.{stands_in, SoundIn};
ghost use Rattle.search.specs.Ring.{Periodic};
ghost use Rattle.search.specs.State.{group_at, sets_of, NoTree, StateIn, SpaceFor, Grown};
ghost use Rattle.tree.specs.Chains.{Word};

use crate::family::{Family, Node};
use crate::graph::Graph;
use weight::{Kind, Root};

// Makes one set of the sets of the ring that the word is on, and finds the best arc into it; none where there is no such arc, and so no tree.
fn merge<K: Kind + Copy>(
    graph: &Graph<'_, K>,
    nodes: &[Node<K>],
    merges: &mut [Node<K>],
    made: usize,
    potentials: &mut [Root<K>],
    word: usize,
) -> Option<()>
    requires space { SpaceFor graph.now.words (length nodes.now) (length merges.old) (length potentials.old) }
    requires sound { SoundIn K.Kind.worth K.Kind.places graph.now }
    requires state { StateIn K.Kind.worth K.Kind.places graph.now nodes.now (take made merges.old) potentials.old }
    requires made { made + 1 ≤ graph.now.words }
    requires word { Word graph.now.words word }
    requires ring { Periodic (from_of (group_at K.Kind.worth nodes.now) (sets_of K.Kind.worth (take made merges.old))) word }
    requires first { OnFirstWay graph.now.words (from_of (group_at K.Kind.worth nodes.now) (sets_of K.Kind.worth (take made merges.old))) word }
    ensures room { made + 2 ≤ graph.now.words }
    ensures merged { MatchOption result (NoTree graph.now.words (stands_in graph.now)) (λ _. StateIn K.Kind.worth K.Kind.places graph.now nodes.now (take (made + 1) merges.new) potentials.new) }
{
    let family = Family {
        words: graph.words,
        nodes,
        made: &merges[..made],
    };
    let members = family.ring_members(word);
    let all = family.total(members);
    family.raise(members, all, potentials);
    let arc = graph.best_into(potentials, members)?;
    merges[made] = Node { members, arc };
    Some(())
}

// Merges rings until every word's heads lead to the root; returns how many merges there were, or none where there is no tree.
// The sets that were made are the first `made` of the records that were lent: a search has no heap.
pub(crate) fn grow<K: Kind + Copy>(
    graph: &Graph<'_, K>,
    nodes: &[Node<K>],
    merges: &mut [Node<K>],
    potentials: &mut [Root<K>],
) -> Option<usize>
    requires space { SpaceFor graph.now.words (length nodes.now) (length merges.old) (length potentials.old) }
    requires sound { SoundIn K.Kind.worth K.Kind.places graph.now }
    requires state { StateIn K.Kind.worth K.Kind.places graph.now nodes.now [] potentials.old }
    ensures { Grown K.Kind.worth K.Kind.places graph.now nodes.now merges.new potentials.new result }
{
    let mut made = 0;
    'rounds: loop {
        let family = Family {
            words: graph.words,
            nodes,
            made: &merges[..made],
        };
        let Err(word) = family.walk_all() else {
            return Some(made);
        };
        merge(graph, nodes, merges, made, potentials, word)?;
        made += 1;
    }
}
