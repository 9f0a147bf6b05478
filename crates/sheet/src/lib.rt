// A sheet: which arcs of a line stand, each with its weight, in memory that the caller lends.
#![tactic(auto)]

ghost use Rattle.std.specs.Prelude.{◌≡◌, ◌≤◌, length, replicate, is_some, IfOk, Some, None};
ghost use Rattle.sheet.specs.Arcs.{ArcChanged, arcs_in, HoldsArcs, no_arcs, with_arc};
ghost use Rattle.sheet.specs.Candidates.{NoneLevel, outranking};
ghost use Rattle.sheet.specs.Orders;
ghost use Rattle.sheet.specs.Calls.{Answered, arc_check, checked, ends_check, Holds, memory_check, open_check, put_check, strike_check, too_short};
ghost use Rattle.sheet.specs.Parts.{lengths_of};
ghost use Rattle.weight.specs.Range.{entry_in};

use queue::Ranked;
use refusal::Refusal;
use search::Node;
use std::cmp::Ordering;
use std::marker::PhantomData;
use weight::{Kind, Opens, Root};
use word_set::{either, holds, only, without};

/// An open sheet of a kind of weight. It is a number of words; what stands on it lies in the memory that it was opened with.
#[derive(Drop)]
pub struct Sheet<K> {
    words: usize,
    of: PhantomData<K>,
    ghost line: { (1 ≤ words) × (words ≤ 40) },
}

/// How long each part of the memory is.
#[derive(Clone, Copy)]
pub struct Lengths {
    pub weights: usize,
    pub sets: usize,
    pub candidates: usize,
    pub nodes: usize,
    pub merges: usize,
    pub potentials: usize,
}

/// The parts of the memory that a sheet asks for and does not write: those of a ranking and of a search.
#[derive(Clone, Copy)]
pub struct Spare<'a, K> {
    pub candidates: &'a [Candidate<K>],
    pub nodes: &'a [Node<K>],
    pub merges: &'a [Node<K>],
    pub potentials: &'a [Root<K>],
}

impl<K> Spare<'_, K> {
    /// How long all parts of the memory are, those that a sheet writes among them.
    pub fn lengths(&self, weights: &[K], sets: &[u64]) -> Lengths
        ensures { result ≡ lengths_of weights.now sets.now self.now }
    {
        Lengths {
            weights: weights.len(),
            sets: sets.len(),
            candidates: self.candidates.len(),
            nodes: self.nodes.len(),
            merges: self.merges.len(),
            potentials: self.potentials.len(),
        }
    }
}

impl<K> Sheet<K> {
    /// How many words the line has.
    pub fn words(&self) -> usize
        ensures { result ≡ self.now.words }
    {
        self.words
    }

    /// Whether some part of the memory is shorter than the sheet wants.
    pub fn too_short(&self, lengths: Lengths) -> bool
        ensures { result ≡ too_short self.now.words lengths }
    {
        let words = self.words;
        lengths.weights < words * (words + 1)
            || lengths.sets < words
            || lengths.candidates < 51
            || lengths.nodes < words + 1
            || lengths.merges < words - 1
            || lengths.potentials < words + 1
    }

    // Whether the parts that hold the arcs are long enough.
    fn memory_check(&self, weights: &[K], sets: &[u64]) -> Result<(), Refusal>
        ensures { result ≡ checked (memory_check self.now.words (length weights.now) (length sets.now)) }
    {
        if weights.len() < self.words * (self.words + 1) || sets.len() < self.words {
            return Err(Refusal::ShortMemory);
        }
        Ok(())
    }

    // Whether the arc has its ends on the line, and they are apart.
    fn arc_check(&self, head: usize, dependent: usize) -> Result<(), Refusal>
        ensures { result ≡ checked (arc_check self.now.words head dependent) }
    {
        if dependent == 0 || dependent > self.words {
            return Err(Refusal::NoDependent);
        }
        if head > self.words {
            return Err(Refusal::HeadAbove);
        }
        if head == dependent {
            return Err(Refusal::SelfLoop);
        }
        Ok(())
    }

    // The memory and the ends of the arc.
    fn ends_check(
        &self,
        weights: &[K],
        sets: &[u64],
        head: usize,
        dependent: usize,
    ) -> Result<(), Refusal>
        ensures { result ≡ checked (ends_check self.now.words (length weights.now) (length sets.now) head dependent) }
    {
        self.memory_check(weights, sets)?;
        self.arc_check(head, dependent)
    }
}

/// A tree that waits to be handed out: a heaviest of its cell. The cell holds the trees with the same heads before the word
/// `from`, and at that word a head that is not banned. The record is of fixed size, since a line has at most forty words.
#[derive(Clone, Copy)]
pub struct Candidate<K> {
    pub heads: [u8; 40],
    pub weight: K,
    pub from: usize,
    pub banned: u64,
}

impl<K> Candidate<K> {
    /// A record to fill the memory with.
    pub fn new(weight: K) -> Candidate<K>
        ensures { (result.heads ≡ replicate 40 0) × (result.weight ≡ weight) × (result.from ≡ 1) × (result.banned ≡ 0) }
    {
        Candidate {
            heads: [0; 40],
            weight,
            from: 1,
            banned: 0,
        }
    }
}

// The heavier tree is handed out first, of equals the one whose heads come first in dictionary order.
impl<K: Kind> Ranked for Candidate<K> {
    ghost above = { λ a b. outranking K.Kind.worth a b };

    ghost ranks = { Orders.ranks K.Kind.worth };

    fn outranks(&self, other: &Candidate<K>) -> bool {
        match self.weight.compare(&other.weight) {
            Ordering::Equal => other.heads.cmp(&self.heads).is_gt(),
            order => order.is_gt(),
        }
    }
}

/// What the order of candidates says: of two with different heads just one comes before the other, whatever they weigh.
pub fn laws()
    ensures { NoneLevel }
{}

/// Opens a sheet: every arc of its line is absent, whatever the memory held.
pub fn open<K: Opens + Copy>(
    words: usize,
    weights: &[K],
    sets: &mut [u64],
    spare: Spare<'_, K>,
) -> Result<Sheet<K>, Refusal>
    ensures answer { Answered (open_check words (lengths_of weights.now sets.old spare.entry)) result (sets.new ≡ sets.old) (IfOk result (λ s. s.words ≡ words) × Holds words no_arcs weights.now weights.now sets.old sets.new) }
    ensures law { IfOk result (λ s. HoldsArcs K.Kind.worth K.Kind.ranges s.words weights.now sets.new no_arcs) }
{
    if words == 0 || words > 40 {
        return Err(Refusal::WordCount);
    }
    let sheet = Sheet {
        words,
        of: PhantomData,
    };
    if sheet.too_short(spare.lengths(weights, sets)) {
        return Err(Refusal::ShortMemory);
    }
    sets[..words].fill(0);
    Ok(sheet)
}

/// Gives an arc a weight, in place of any that it had. Weights and sets come by themselves, and each is lent to be written only
/// where the call writes it.
pub fn put<K: Opens + Copy>(
    sheet: &Sheet<K>,
    weights: &mut [K],
    sets: &mut [u64],
    head: usize,
    dependent: usize,
    weight: K,
) -> Result<(), Refusal>
    ensures answer { Answered (put_check sheet.now.words (length weights.old) (length sets.old) head dependent (entry_in K.Kind.ranges (K.Kind.worth weight))) result ((weights.new ≡ weights.old) × (sets.new ≡ sets.old)) (Holds sheet.now.words (with_arc head dependent (Some weight) (arcs_in sheet.now.words weights.old sets.old)) weights.old weights.new sets.old sets.new) }
    ensures law { ArcChanged K.Kind.worth K.Kind.ranges sheet.now.words head dependent (Some weight) result weights.old weights.new sets.old sets.new }
{
    sheet.ends_check(weights, sets, head, dependent)?;
    if !weight.entry() {
        return Err(Refusal::NoEntry);
    }
    let at = (dependent - 1) * (sheet.words + 1) + head;
    weights[at] = weight;
    sets[dependent - 1] = either(sets[dependent - 1], only(head));
    Ok(())
}

/// Makes an arc absent.
pub fn strike<K: Opens + Copy>(
    sheet: &Sheet<K>,
    weights: &[K],
    sets: &mut [u64],
    head: usize,
    dependent: usize,
) -> Result<(), Refusal>
    ensures answer { Answered (strike_check sheet.now.words (length weights.now) (length sets.old) head dependent (is_some (arcs_in sheet.now.words weights.now sets.old head dependent))) result (sets.new ≡ sets.old) (Holds sheet.now.words (with_arc head dependent None (arcs_in sheet.now.words weights.now sets.old)) weights.now weights.now sets.old sets.new) }
    ensures law { ArcChanged K.Kind.worth K.Kind.ranges sheet.now.words head dependent None result weights.now weights.now sets.old sets.new }
{
    sheet.ends_check(weights, sets, head, dependent)?;
    if !holds(sets[dependent - 1], head) {
        return Err(Refusal::AbsentArc);
    }
    sets[dependent - 1] = without(sets[dependent - 1], only(head));
    Ok(())
}

#[cfg(test)]
mod tests;
