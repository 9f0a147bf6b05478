// The whole search: each word's best arc, the merges, the opening.
ghost use Rattle.std.specs.Prelude.{◌≡◌, ℕ, suc, ◌<◌, ◌≤◌, length, MatchOption};
ghost use Rattle.search.specs.Arcs.{stands_in, arc_in, potential, SoundIn};
ghost use Rattle.search.specs.Choice.{Chosen};
ghost use Rattle.search.specs.Family.{Begun};
ghost use Rattle.search.specs.Opening.{BestOfAll};
ghost use Rattle.search.specs.State.{group_at, NoTree, SpaceFor};
ghost use Rattle.tree.specs.Chains.{head_of};
ghost use Rattle.weight.specs.Worth.{zeros};

use crate::arcs::Entering;
use crate::family::{Family, Node};
use crate::graph::Graph;
use crate::merging::grow;
use crate::opening::open;
use weight::{Kind, Root};
use word_set::{only, without};

// Every potential is nothing. (`fill` asks for a clone that cannot fail, and of a kind of weight that is not known.)
fn clear<K: Kind + Copy>(words: usize, potentials: &mut [Root<K>])
    requires few { words ≤ 40 }
    requires room { words < length potentials.old }
    ensures { (w : ℕ) → w ≤ words → potential K.Kind.worth potentials.new w ≡ zeros (suc K.Kind.places) }
{
    for potential in &mut potentials[..words + 1] {
        *potential = <Root<_> as Kind>::nothing();
    }
}

// The best arc into each word; none where a word has none, and so there is no tree.
fn begin<K: Kind + Copy>(graph: &Graph<'_, K>, nodes: &mut [Node<K>]) -> Option<()>
    requires room { graph.now.words < length nodes.old }
    requires sound { SoundIn K.Kind.worth K.Kind.places graph.now }
    ensures { MatchOption result (NoTree graph.now.words (stands_in graph.now)) (λ _. Begun graph.now.words graph.now.words (stands_in graph.now) (arc_in K.Kind.worth graph.now) (zeros (suc K.Kind.places)) (group_at K.Kind.worth nodes.new)) }
{
    nodes[0] = Node::new(K::nothing());
    // by the word and not by the nodes' items: the word asks for its heads and its arc too
    for to in 1..graph.words + 1 {
        let members = only(to);
        let from = graph.best_head(to, without(graph.open_heads(to), members))?;
        let value = graph.arc(from, to);
        nodes[to] = Node {
            members,
            arc: Entering { from, to, value },
        };
    }
    Some(())
}

// The heads of a heaviest arborescence over the root layer; none exactly where there is none. The parts of the working space come
// one by one from here on, since the nodes are only read once they are begun.
pub(crate) fn heaviest<K: Kind + Copy>(
    graph: &Graph<'_, K>,
    nodes: &mut [Node<K>],
    merges: &mut [Node<K>],
    potentials: &mut [Root<K>],
) -> Option<[u8; 40]>
    requires space { SpaceFor graph.now.words (length nodes.old) (length merges.old) (length potentials.old) }
    requires sound { SoundIn K.Kind.worth K.Kind.places graph.now }
    ensures { MatchOption result (NoTree graph.now.words (stands_in graph.now)) (λ heads. BestOfAll graph.now.words (stands_in graph.now) (arc_in K.Kind.worth graph.now) (head_of heads) × Chosen K.Kind.places graph.now.words (stands_in graph.now) (arc_in K.Kind.worth graph.now) (head_of heads)) }
{
    clear(graph.words, potentials);
    begin(graph, nodes)?;
    let made = grow(graph, nodes, merges, potentials)?;
    let family = Family {
        words: graph.words,
        nodes,
        made: &merges[..made],
    };
    let mut heads = [0; 40];
    open(&family, &mut heads);
    Some(heads)
}
