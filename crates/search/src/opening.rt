// The sets are opened, from the newest to the oldest, and give each word its head.
ghost use Rattle.std.specs.Prelude.{◌≡◌, ℕ, ◌<◌, ◌≤◌, [], length};
ghost use Rattle.search.specs.Choice.{opened};
ghost use Rattle.search.specs.Opening.{Lined, OpensToBest};
ghost use Rattle.search.specs.State.{group_at, base_in, sets_in};
ghost use Rattle.tree.specs.Chains.{Word, head_of};

use crate::family::{Family, Node};
use weight::Kind;
use word_set::{both, either, only};

// Writes the head of a word.
fn set_head(heads: &mut [u8], word: usize, from: usize)
    requires word { (1 ≤ word) × (word ≤ length heads.old) }
    requires from { from < 256 }
    ensures here { head_of heads.new word ≡ from }
    ensures there { (v : ℕ) → (v ≡ word → ⊥) → head_of heads.new v ≡ head_of heads.old v }
{
    // a head fits a byte: `try_from` would owe an answer for heads that do not come
    heads[word - 1] = from as u8;
}

// Gives each word the head of its own best arc. (Of what is written over `iter_mut().zip(..)` nothing is known after the loop.)
fn first_heads<K: Kind + Copy>(words: usize, nodes: &[Node<K>], heads: &mut [u8])
    requires few { words ≤ 40 }
    requires nodes { words < length nodes.now }
    requires room { words ≤ length heads.old }
    requires in_line { (w : ℕ) → Word words w → (group_at K.Kind.worth nodes.now w).from ≤ words }
    ensures { (w : ℕ) → Word words w → head_of heads.new w ≡ (group_at K.Kind.worth nodes.now w).from }
{
    for word in 1..words + 1 {
        set_head(heads, word, nodes[word].arc.from);
    }
}

// Opens the sets: each one's word gets the head of the set's arc, unless a word of the set has its head already.
pub(crate) fn open<K: Kind + Copy>(family: &Family<'_, K>, heads: &mut [u8])
    requires room { family.now.words ≤ length heads.old }
    requires lined { Lined family.now.words (base_in K.Kind.worth family.now) (sets_in K.Kind.worth family.now) }
    ensures best { OpensToBest K.Kind.places family.now.words (base_in K.Kind.worth family.now) (sets_in K.Kind.worth family.now) (head_of heads.new) }
    ensures order { (w : ℕ) → Word family.now.words w → head_of heads.new w ≡ opened [] (λ v. (base_in K.Kind.worth family.now v).from) (sets_in K.Kind.worth family.now) w }
{
    first_heads(family.words, family.nodes, heads);
    let mut done = 0;
    for node in family.made.iter().rev() {
        if both(node.members, done) == 0 {
            set_head(heads, node.arc.to, node.arc.from);
            done = either(done, only(node.arc.to));
        }
    }
}
