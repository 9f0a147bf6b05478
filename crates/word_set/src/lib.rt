// Sets of words as the bits of a number: bit w is up where word w is in the set. Bit 0 is the root's.
// A set has room for the words up to 63, and is a plain u64, without heap, as records of fixed size hold it.
#![tactic(auto)]

ghost use Rattle.std.specs.Prelude.{◌≡◌, ℕ, ◌<◌, not, ◌&&◌, ◌||◌, ◌==◌, nat_lt};
ghost use Rattle.std.specs.Iterator.{at_most};
ghost use Rattle.word_set.specs.Bits.{in_set};
ghost use Rattle.word_set.specs.Words.{NextWord};

/// Whether the word is in the set.
#[tactic(auto, using(crate::proofs::Sets::bit_is, crate::proofs::Sets::in_set_beyond))]
pub fn holds(set: u64, word: usize) -> bool
    ensures { result ≡ in_set set word }
{
    word < 64 && (set >> word) & 1 == 1
}

/// The set of one word; no word above 63 is in a set.
#[tactic(auto, using(crate::proofs::Sets::only_small, crate::proofs::Sets::only_near, crate::proofs::Sets::only_far))]
pub fn only(word: usize) -> u64
    ensures words { (v : ℕ) → in_set result v ≡ (v == word && nat_lt word 64) }
    ensures small { word < 64 → (v : ℕ) → in_set result v ≡ (v == word) }
{
    if word < 64 { 1 << word } else { 0 }
}

/// The words of either set.
#[tactic(auto, using(crate::proofs::Sets::in_set_or))]
pub fn either(a: u64, b: u64) -> u64
    ensures { (v : ℕ) → in_set result v ≡ (in_set a v || in_set b v) }
{
    a | b
}

/// The words of both sets.
#[tactic(auto, using(crate::proofs::Sets::in_set_and))]
pub fn both(a: u64, b: u64) -> u64
    ensures { (v : ℕ) → in_set result v ≡ (in_set a v && in_set b v) }
{
    a & b
}

/// The words of the first set that are not in the second.
#[tactic(auto, using(crate::proofs::Sets::in_set_less))]
pub fn without(a: u64, b: u64) -> u64
    ensures { (v : ℕ) → in_set result v ≡ (in_set a v && not (in_set b v)) }
{
    a ^ (a & b)
}

/// The words of a set, lowest first: `left` are those that are still to come.
#[derive(Drop)]
pub struct Words {
    pub left: u64,
}

impl Iterator for Words {
    type Item = usize;

    ghost next_gives = { λ s r t. NextWord s.left r t.left };

    ghost remaining = { λ s. at_most s.left };

    #[tactic(auto, using(crate::proofs::Sets::in_set_empty, crate::proofs::Sets::takes, std::proofs::lemmas::Nat::and_le_r))]
    fn next(&mut self) -> Option<usize> {
        if self.left == 0 {
            return None;
        }
        // `usize` is not `From<u32>`
        let word = self.left.trailing_zeros() as usize;
        self.left &= self.left - 1;
        Some(word)
    }
}

/// The words of the set, lowest first.
pub fn words_of(set: u64) -> Words
    ensures { result.left ≡ set }
{
    Words { left: set }
}
