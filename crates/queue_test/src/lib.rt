// A caller of the waiting list, whose elements are records with an array in them, and long runs of the list beside a
// plain sorted one.
#![tactic(auto)]

ghost use Rattle.queue_test.specs.Weights.{HeaviestFirst};
ghost use Rattle.std.specs.List.Sorted.{IsPermutation};
ghost use Rattle.std.specs.Prelude.{◌≡◌, length, IsOkAnd, nat_lt};
ghost use Rattle.std.proofs.Common.{rules};

use queue::{Ranked, Refused};

/// A tree, as the heads of four words, with its weight.
#[derive(Clone, Copy, PartialEq, Eq, Debug)]
pub struct Candidate {
    pub heads: [u8; 4],
    pub weight: u32,
}

// The heavier candidate outranks the lighter one.
impl Ranked for Candidate {
    ghost above = { λ x y. nat_lt y.weight x.weight };

    ghost ranks = { Prim.search rules };

    fn outranks(&self, other: &Candidate) -> bool {
        other.weight < self.weight
    }
}

/// The given candidates, heaviest first.
pub fn heaviest_first(given: [Candidate; 8]) -> [Candidate; 8]
    ensures same { IsPermutation given result }
    ensures falls { HeaviestFirst result }
{
    let mut slots = given;
    let mut out = given;
    match weigh_out(&given, &mut slots, &mut out) {
        Ok(()) => out,
        Err(_) => given,
    }
}

// Fills `out` with the given candidates, heaviest first, with as many slots to work in.
fn weigh_out(
    given: &[Candidate],
    slots: &mut [Candidate],
    out: &mut [Candidate],
) -> Result<(), Refused>
    requires slots { length slots.old ≡ length given.now }
    requires places { length out.old ≡ length given.now }
    ensures { IsOkAnd result (λ _. IsPermutation given.now out.new × HeaviestFirst out.new) }
{
    queue::rank(given, slots, out)?;
    Ok(())
}

#[cfg(test)]
mod tests;
