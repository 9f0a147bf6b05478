// Arcs of one word are set aside while a tree is sought, and are back on every way out.
ghost use Rattle.std.specs.Prelude.{◌≡◌, ℕ, ◌+◌, ◌<◌, ◌≤◌, take, length, set as put};
ghost use Rattle.search.specs.Answer.{LineOfWords, Searched, barring};
ghost use Rattle.search.specs.Arcs.{allowed, weight_at};
ghost use Rattle.search.specs.Choice.{Settles};
ghost use Rattle.search.specs.Space.{KeptIn, RoomIn, SameParts, space_of};

use crate::{Working, best_tree, check};
use refusal::Refusal;
use weight::Kind;
use word_set::without;

// A word's set of arcs as it was, to be restored when the search leaves.
struct Aside<'a> {
    sets: &'a mut [u64],
    at: usize,
    saved: u64,
}

impl Drop for Aside<'_> {
    fn drop(self)
        requires { self.at < length self.sets.now }
        ensures { self.exit.0.now ≡ put self.entry.sets.now self.entry.at self.entry.saved }
    {
        self.sets[self.at] = self.saved;
        let Aside {
            sets: _,
            at: _,
            saved: _,
        } = self;
    }
}

impl Aside<'_> {
    // The sets as they stand meanwhile.
    fn seen(&self) -> &[u64]
        ensures { result.now ≡ self.now.sets.now }
    {
        self.sets
    }
}

// Searches without the arcs from the barred heads into the first word that is not held. Nothing is set aside before the checks have passed.
fn search_aside<K: Kind + Copy>(
    words: usize,
    sets: &mut [u64],
    weights: &[K],
    held: &[u8],
    barred: u64,
    working: &mut Working<'_, K>,
    heads: &mut [u8],
) -> Result<Option<K>, Refusal>
    requires held { length held.now < length sets.old }
    requires checked { LineOfWords words × RoomIn words sets.old weights.now working.old × (words ≤ length heads.old) }
    ensures kept { sets.new ≡ sets.old }
    ensures told { Searched K.Kind.worth K.Kind.ranges words (barring (allowed sets.old held.now) (length held.now + 1) barred) (weight_at K.Kind.worth words weights.now) (RoomIn words sets.old weights.now working.old) heads.old heads.new result }
    ensures settled { Settles K.Kind.ranges words (barring (allowed sets.old held.now) (length held.now + 1) barred) (weight_at K.Kind.worth words weights.now) (take words heads.new) result }
    ensures parts { SameParts working.old working.new }
    ensures memory { KeptIn words (space_of working.old) (space_of working.new) result }
{
    let at = held.len();
    let saved = sets[at];
    sets[at] = without(saved, barred);
    let aside = Aside { sets, at, saved };
    best_tree(words, aside.seen(), weights, held, working, heads)
}

/// The heaviest single-root tree of the line, as `best_tree` finds it, but without the arcs from the barred heads into the first word that is not held.
/// They are set aside meanwhile; the sets are as before on every way out.
pub fn best_tree_barring<K: Kind + Copy>(
    words: usize,
    sets: &mut [u64],
    weights: &[K],
    held: &[u8],
    barred: u64,
    working: &mut Working<'_, K>,
    heads: &mut [u8],
) -> Result<Option<K>, Refusal>
    ensures kept { sets.new ≡ sets.old }
    ensures told { Searched K.Kind.worth K.Kind.ranges words (barring (allowed sets.old held.now) (length held.now + 1) barred) (weight_at K.Kind.worth words weights.now) (RoomIn words sets.old weights.now working.old) heads.old heads.new result }
    ensures settled { Settles K.Kind.ranges words (barring (allowed sets.old held.now) (length held.now + 1) barred) (weight_at K.Kind.worth words weights.now) (take words heads.new) result }
    ensures parts { SameParts working.old working.new }
    ensures memory { KeptIn words (space_of working.old) (space_of working.new) result }
{
    check(words, sets, weights, working, heads)?;
    if held.len() >= sets.len() {
        return best_tree(words, sets, weights, held, working, heads);
    }
    search_aside(words, sets, weights, held, barred, working, heads)
}
