// The check that a list of heads is a single-root tree.
ghost use Rattle.std.specs.Prelude.{◌≡◌, ℕ, ◌≤◌, true, false, length};
ghost use Rattle.tree.specs.Chains.{head_of, Word};
ghost use Rattle.tree.specs.Trees.{Checked, ToldRoot};

use crate::cycle::find_cycle;
use refusal::Refusal;

// Whether no head is above the number of words.
#[tactic(auto, using(crate::proofs::Lines::one_above))]
fn in_line(heads: &[u8]) -> bool
    ensures yes { result ≡ true → (w : ℕ) → Word (length heads.now) w → head_of heads.now w ≤ length heads.now }
    ensures no { result ≡ false → ((w : ℕ) → Word (length heads.now) w → head_of heads.now w ≤ length heads.now) → ⊥ }
{
    heads.iter().all(|head| usize::from(*head) <= heads.len())
}

// The only word on the root; none where no word or more than one hangs there.
#[tactic(auto, using(crate::proofs::Lines::two_roots))]
fn only_root(heads: &[u8]) -> Option<usize>
    ensures { ToldRoot heads.now result }
{
    let mut root = None;
    for (i, head) in heads.iter().enumerate() {
        if *head == 0 {
            if root.is_some() {
                return None;
            }
            root = Some(i + 1);
        }
    }
    root
}

/// The root's word of a single-root tree of 1 to 40 words. Any other list of heads is refused.
#[tactic(auto, using(crate::proofs::Lines::told_free, crate::proofs::Lines::line_tree))]
pub fn check_heads(heads: &[u8]) -> Result<usize, Refusal>
    ensures { Checked heads.now result }
{
    if heads.len() > 40 || !in_line(heads) || find_cycle(heads).is_some() {
        return Err(Refusal::NotATree);
    }
    only_root(heads).ok_or(Refusal::NotATree)
}
