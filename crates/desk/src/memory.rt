// The memory of a sheet, and the calls that work in it.
ghost use Rattle.std.specs.Prelude.{◌≡◌, ℕ, ◌+◌, [], take, length, replicate, is_some, IfOk, Some, None, vec_len};

use crate::lent::{run_file_in, run_in, search_barring_in, search_in, take_in};
use file::{FileFault, Recorded};
use ranking::{Ranking, Taken};
use refusal::Refusal;
use run::{Call, Turn};
use search::Node;
use sheet::{Candidate, Sheet, Spare};
use std::alloc::{AllocError, Global};
use weight::{Kind, Opens, Root};

/// Every part of the memory, as long as a sheet of 40 words wants it.
#[derive(Drop)]
pub struct Memory<K> {
    pub weights: Vec<K>,
    pub sets: Vec<u64>,
    pub candidates: Vec<Candidate<K>>,
    pub nodes: Vec<Node<K>>,
    pub merges: Vec<Node<K>>,
    pub potentials: Vec<Root<K>>,
    ghost arcs: { (vec_len weights ≡ 1640) × (vec_len sets ≡ 40) },
    ghost waiting: { vec_len candidates ≡ 51 },
    ghost space: { (vec_len nodes ≡ 41) × (vec_len merges ≡ 39) × (vec_len potentials ≡ 41) },
}

// So many copies of a value. (`vec!` clones it, and of a clone nothing is known here.)
fn filled<T: Copy>(heap: Global, value: T, len: usize) -> Result<Vec<T>, AllocError>
    ensures items { IfOk result (λ v. v.items ≡ replicate len value) }
    ensures len { IfOk result (λ v. vec_len v ≡ len) }
{
    let mut items = Vec::with_capacity(heap, len)?;
    for _ in 0..len {
        items.push(value)?;
    }
    Ok(items)
}

impl<K: Opens + Copy> Memory<K> {
    ghost use Rattle.desk.specs.Parts.{Fresh, parts_of, space_in};
    ghost use Rattle.ranking.specs.Calls.{Took, part_lengths};
    ghost use Rattle.run.specs.Steps.{Ran, run_check};
    ghost use Rattle.search.specs.Answer.{Searched, barring};
    ghost use Rattle.search.specs.Arcs.{allowed, weight_at};
    ghost use Rattle.search.specs.Choice.{Settles};
    ghost use Rattle.search.specs.Space.{KeptIn};
    ghost use Rattle.search.specs.State.{Room};
    ghost use Rattle.sheet.specs.Arcs.{ArcChanged, arcs_in, HoldsArcs, no_arcs, with_arc};
    ghost use Rattle.sheet.specs.Calls.{Answered, Holds, open_check, put_check, strike_check};
    ghost use Rattle.weight.specs.Range.{entry_in};

    /// Memory in which no arc stands.
    pub fn new(heap: Global) -> Result<Memory<K>, AllocError>
        ensures { IfOk result (λ m. Fresh K.Kind.worth K.Kind.places (parts_of m)) }
    {
        let nothing = K::nothing();
        Ok(Memory {
            weights: filled(heap, nothing, 1640)?,
            sets: vec![in heap; 0; 40]?,
            candidates: filled(heap, Candidate::new(nothing), 51)?,
            nodes: filled(heap, Node::new(nothing), 41)?,
            merges: filled(heap, Node::new(nothing), 39)?,
            potentials: filled(heap, <Root<_> as Kind>::nothing(), 41)?,
        })
    }

    /// Opens a sheet.
    pub fn open(&mut self, words: usize) -> Result<Sheet<K>, Refusal>
        ensures answer { Answered (open_check words (part_lengths (parts_of self.old))) result (self.new.sets.items ≡ self.old.sets.items) (IfOk result (λ s. s.words ≡ words) × Holds words no_arcs self.old.weights.items self.new.weights.items self.old.sets.items self.new.sets.items) }
        ensures law { IfOk result (λ s. HoldsArcs K.Kind.worth K.Kind.ranges s.words self.new.weights.items self.new.sets.items no_arcs) }
        ensures others { parts_of self.new ≡ record (parts_of self.old) { sets = self.new.sets.items } }
    {
        let spare = Spare {
            candidates: &self.candidates,
            nodes: &self.nodes,
            merges: &self.merges,
            potentials: &self.potentials,
        };
        sheet::open(words, &self.weights, &mut self.sets, spare)
    }

    /// Gives an arc a weight, in place of any that it had.
    pub fn put(
        &mut self,
        sheet: &Sheet<K>,
        head: usize,
        dependent: usize,
        weight: K,
    ) -> Result<(), Refusal>
        ensures answer { Answered (put_check sheet.now.words 1640 40 head dependent (entry_in K.Kind.ranges (K.Kind.worth weight))) result ((self.new.weights.items ≡ self.old.weights.items) × (self.new.sets.items ≡ self.old.sets.items)) (Holds sheet.now.words (with_arc head dependent (Some weight) (arcs_in sheet.now.words self.old.weights.items self.old.sets.items)) self.old.weights.items self.new.weights.items self.old.sets.items self.new.sets.items) }
        ensures law { ArcChanged K.Kind.worth K.Kind.ranges sheet.now.words head dependent (Some weight) result self.old.weights.items self.new.weights.items self.old.sets.items self.new.sets.items }
        ensures others { parts_of self.new ≡ record (parts_of self.old) { weights = self.new.weights.items; sets = self.new.sets.items } }
    {
        let Memory { weights, sets, .. } = self;
        sheet::put(sheet, weights, sets, head, dependent, weight)
    }

    /// Makes an arc absent.
    pub fn strike(&mut self, sheet: &Sheet<K>, head: usize, dependent: usize) -> Result<(), Refusal>
        ensures answer { Answered (strike_check sheet.now.words 1640 40 head dependent (is_some (arcs_in sheet.now.words self.old.weights.items self.old.sets.items head dependent))) result (self.new.sets.items ≡ self.old.sets.items) (Holds sheet.now.words (with_arc head dependent None (arcs_in sheet.now.words self.old.weights.items self.old.sets.items)) self.old.weights.items self.new.weights.items self.old.sets.items self.new.sets.items) }
        ensures law { ArcChanged K.Kind.worth K.Kind.ranges sheet.now.words head dependent None result self.old.weights.items self.new.weights.items self.old.sets.items self.new.sets.items }
        ensures others { parts_of self.new ≡ record (parts_of self.old) { sets = self.new.sets.items } }
    {
        sheet::strike(sheet, &self.weights, &mut self.sets, head, dependent)
    }

    /// The heaviest tree of the line over the arcs that stand, with the first words held, each at its head in `held`.
    pub fn search(
        &mut self,
        words: usize,
        held: &[u8],
        heads: &mut [u8],
    ) -> Result<Option<K>, Refusal>
        ensures told { Searched K.Kind.worth K.Kind.ranges words (allowed self.old.sets.items held.now) (weight_at K.Kind.worth words self.old.weights.items) (Room words 40 1640 41 39 41) heads.old heads.new result }
        ensures settled { Settles K.Kind.ranges words (allowed self.old.sets.items held.now) (weight_at K.Kind.worth words self.old.weights.items) (take words heads.new) result }
        ensures others { parts_of self.new ≡ record (parts_of self.old) { nodes = self.new.nodes.items; merges = self.new.merges.items; potentials = self.new.potentials.items } }
        ensures memory { KeptIn words (space_in self.old) (space_in self.new) result }
    {
        let (weights, sets) = (&self.weights, &self.sets);
        let Memory {
            nodes,
            merges,
            potentials,
            ..
        } = self;
        search_in(words, sets, weights, held, nodes, merges, potentials, heads)
    }

    /// The same without the arcs from the barred heads into the first word that is not held.
    pub fn search_barring(
        &mut self,
        words: usize,
        held: &[u8],
        barred: u64,
        heads: &mut [u8],
    ) -> Result<Option<K>, Refusal>
        ensures told { Searched K.Kind.worth K.Kind.ranges words (barring (allowed self.old.sets.items held.now) (length held.now + 1) barred) (weight_at K.Kind.worth words self.old.weights.items) (Room words 40 1640 41 39 41) heads.old heads.new result }
        ensures settled { Settles K.Kind.ranges words (barring (allowed self.old.sets.items held.now) (length held.now + 1) barred) (weight_at K.Kind.worth words self.old.weights.items) (take words heads.new) result }
        ensures others { parts_of self.new ≡ record (parts_of self.old) { nodes = self.new.nodes.items; merges = self.new.merges.items; potentials = self.new.potentials.items } }
        ensures memory { KeptIn words (space_in self.old) (space_in self.new) result }
    {
        let weights = &self.weights;
        let Memory {
            sets,
            nodes,
            merges,
            potentials,
            ..
        } = self;
        search_barring_in(
            words, sets, weights, held, barred, nodes, merges, potentials, heads,
        )
    }

    /// Takes a tree of the ranking: its heads go to the front of the space.
    pub fn take(&mut self, ranking: &mut Ranking<K>, space: &mut [u8]) -> Result<Taken<K>, Refusal>
        ensures { Took K.Kind.worth K.Kind.ranges ranking.old ranking.new (parts_of self.old) (parts_of self.new) space.old space.new result }
    {
        let weights = &self.weights;
        let Memory {
            sets,
            candidates,
            nodes,
            merges,
            potentials,
            ..
        } = self;
        take_in(
            ranking, weights, sets, candidates, nodes, merges, potentials, space,
        )
    }

    /// Opens a sheet of so many words, makes the calls in their order, and notes each with its answer.
    pub fn run(
        &mut self,
        words: usize,
        calls: &[Call<K>],
        turns: &mut [Turn<K>],
    ) -> Result<(), Refusal>
        ensures { Answered (run_check words (part_lengths (parts_of self.old)) (length calls.now) (length turns.old)) result ((parts_of self.new ≡ parts_of self.old) × (turns.new ≡ turns.old)) (Ran K.Kind.worth K.Kind.ranges words [] calls.now (parts_of self.old) (parts_of self.new) turns.old turns.new) }
    {
        let Memory {
            weights,
            sets,
            candidates,
            nodes,
            merges,
            potentials,
            ..
        } = self;
        run_in(
            words, calls, weights, sets, candidates, nodes, merges, potentials, turns,
        )
    }
}

impl<K: Recorded + Copy> Memory<K> {
    ghost use Rattle.desk.specs.Parts.{parts_of};
    ghost use Rattle.file.specs.Reading.{HeldAfter, ReadAs};
    ghost use Rattle.ranking.specs.Calls.{part_lengths};
    ghost use Rattle.run.specs.Files.{RanFile};

    /// Reads a file of the kind: opens a sheet and puts the file's records on it.
    pub fn read(&mut self, file: &[u8]) -> Result<Sheet<K>, FileFault>
        ensures answer { ReadAs K.format (part_lengths (parts_of self.old)) file.now result self.old.weights.items self.new.weights.items self.old.sets.items self.new.sets.items }
        ensures law { HeldAfter K.format K.Kind.worth K.Kind.ranges file.now result self.new.weights.items self.new.sets.items }
        ensures others { parts_of self.new ≡ record (parts_of self.old) { weights = self.new.weights.items; sets = self.new.sets.items } }
    {
        let spare = Spare {
            candidates: &self.candidates,
            nodes: &self.nodes,
            merges: &self.merges,
            potentials: &self.potentials,
        };
        file::read(file, &mut self.weights, &mut self.sets, spare)
    }

    /// Reads a file, makes the calls on its sheet in their order, and notes each with its answer.
    pub fn run_file(
        &mut self,
        file: &[u8],
        calls: &[Call<K>],
        turns: &mut [Turn<K>],
    ) -> Result<(), FileFault>
        ensures { RanFile K.format K.Kind.worth K.Kind.ranges file.now calls.now (parts_of self.old) (parts_of self.new) turns.old turns.new result }
    {
        let Memory {
            weights,
            sets,
            candidates,
            nodes,
            merges,
            potentials,
            ..
        } = self;
        run_file_in(
            file, calls, weights, sets, candidates, nodes, merges, potentials, turns,
        )
    }
}
