// Runs of calls: a list of calls on a fresh sheet or on the sheet of a file, each with its answer.
#![tactic(auto)]

ghost use Rattle.std.specs.Prelude.{◌≡◌, ◌≤◌, false, List, [], length, IfOk};
ghost use Rattle.file.specs.Reading.{HeldAfter, ReadAs};
ghost use Rattle.ranking.specs.Calls.{part_lengths, Took};
ghost use Rattle.run.specs.Alike.{ByHandAlike, CallsSettle, FreshAlike, RunsAlike};
ghost use Rattle.run.specs.Files.{FileStands, RanFile};
ghost use Rattle.run.specs.Law.{RanksTruly, Run};
ghost use Rattle.run.specs.Loans.{lists, lists_of, SameLoans};
ghost use Rattle.run.specs.Steps.{Begins, Ran, Stepped, run_check, told_by, turns_check};
ghost use Rattle.run.specs.declared.Call.TheVariants.{Take};
ghost use Rattle.run.specs.declared.State.TheVariants.{Open, Ranked};
ghost use Rattle.search.specs.declared.family.Node.{Node};
ghost use Rattle.sheet.specs.Arcs.{HoldsArcs, no_arcs};
ghost use Rattle.sheet.specs.Calls.{Answered, checked, Holds, open_check, too_short};
ghost use Rattle.sheet.specs.declared.Candidate.{Candidate};
ghost use Rattle.weight.specs.Layers.{Root};

use file::{FileFault, Recorded};
use ranking::{Ranking, Taken};
use refusal::Refusal;
use search::{Node, Working};
use sheet::{Candidate, Sheet, Spare};
use weight::{Opens, Root};

/// The memory that a run works in, lent together. Flat, since a caller learns nothing of slices that it lent in a struct in a struct.
#[derive(Drop)]
pub struct LentMemory<'a, K> {
    pub weights: &'a mut [K],
    pub sets: &'a mut [u64],
    pub candidates: &'a mut [Candidate<K>],
    pub nodes: &'a mut [Node<K>],
    pub merges: &'a mut [Node<K>],
    pub potentials: &'a mut [Root<K>],
}

/// A call on a sheet or on its ranking. A take says how many bytes of space it is given.
#[derive(Clone, Copy, PartialEq, Eq, Debug)]
pub enum Call<K> {
    /// gives the arc, from this head to this dependent, this weight
    Put(usize, usize, K),
    /// makes the arc, from this head to this dependent, absent
    Strike(usize, usize),
    /// turns the sheet into a ranking with no tree taken
    Begin,
    /// takes a tree into so many bytes of space
    Take(usize),
    /// turns the ranking back into the sheet
    End,
}

/// What a call answered.
#[derive(Clone, Copy, PartialEq, Eq, Debug)]
pub enum Answer<K> {
    /// a put, strike, begin or end was done
    Done,
    /// a take handed out a tree: its heads with zeros behind them, its weight and its number
    Handed([u8; 40], Taken<K>),
    /// the call was refused
    Refused(Refusal),
    /// a put, strike or begin while a ranking stands, or a take or end while none does: nothing was called
    Misplaced,
}

/// A call with its answer.
#[derive(Clone, Copy, PartialEq, Eq, Debug)]
pub struct Turn<K> {
    pub call: Call<K>,
    pub answer: Answer<K>,
}

// Where a run stands: the sheet is open, or a ranking of it stands.
#[derive(Drop)]
enum State<K> {
    Open(Sheet<K>),
    Ranked(Ranking<K>),
}

// Takes a tree in memory whose working space comes part by part.
fn take_in<K: Opens + Copy>(
    ranking: &mut Ranking<K>,
    weights: &[K],
    sets: &mut [u64],
    candidates: &mut [Candidate<K>],
    nodes: &mut [Node<K>],
    merges: &mut [Node<K>],
    potentials: &mut [Root<K>],
    space: &mut [u8],
) -> Result<Taken<K>, Refusal>
    ensures { Took K.Kind.worth K.Kind.ranges ranking.old ranking.new (lists weights.now sets.old candidates.old nodes.old merges.old potentials.old) (lists weights.now sets.new candidates.new nodes.new merges.new potentials.new) space.old space.new result }
{
    let mut working = Working {
        nodes,
        merges,
        potentials,
    };
    ranking::take(ranking, weights, sets, candidates, &mut working, space)
}

// Takes a tree into so many bytes of space. The parts are lent one by one, since a part behind a `&mut LentMemory` is not lent as a
// `&` beside others.
fn take_into<K: Opens + Copy>(
    ranking: &mut Ranking<K>,
    room: usize,
    weights: &mut [K],
    sets: &mut [u64],
    candidates: &mut [Candidate<K>],
    nodes: &mut [Node<K>],
    merges: &mut [Node<K>],
    potentials: &mut [Root<K>],
) -> Answer<K>
    ensures { Stepped K.Kind.worth K.Kind.ranges (Ranked ranking.old) (Ranked ranking.new) (lists weights.old sets.old candidates.old nodes.old merges.old potentials.old) (lists weights.new sets.new candidates.new nodes.new merges.new potentials.new) (Take room) result }
{
    let mut heads = [0; 40];
    let lent = room.min(40);
    match take_in(
        ranking,
        weights,
        sets,
        candidates,
        nodes,
        merges,
        potentials,
        &mut heads[..lent],
    ) {
        Ok(taken) => Answer::Handed(heads, taken),
        Err(why) => Answer::Refused(why),
    }
}

// A put or a strike is done or refused.
impl<K> From<Result<(), Refusal>> for Answer<K> {
    ghost from_gives = { λ done answer. answer ≡ told_by done };

    fn from(done: Result<(), Refusal>) -> Answer<K> {
        match done {
            Ok(()) => Answer::Done,
            Err(why) => Answer::Refused(why),
        }
    }
}

// Makes one call on an open sheet.
fn on_sheet<K: Opens + Copy>(
    sheet: Sheet<K>,
    call: Call<K>,
    weights: &mut [K],
    sets: &mut [u64],
) -> (State<K>, Answer<K>)
    ensures { (candidates : List (Candidate K)) (nodes merges : List (Node K)) (potentials : List (Root K)) → Stepped K.Kind.worth K.Kind.ranges (Open sheet) result.0 (lists weights.old sets.old candidates nodes merges potentials) (lists weights.new sets.new candidates nodes merges potentials) call result.1 }
{
    match call {
        Call::Put(head, dependent, weight) => {
            let done = sheet::put(&sheet, weights, sets, head, dependent, weight);
            (State::Open(sheet), Answer::from(done))
        }
        Call::Strike(head, dependent) => {
            let done = sheet::strike(&sheet, weights, sets, head, dependent);
            (State::Open(sheet), Answer::from(done))
        }
        Call::Begin => {
            let ranking = ranking::begin(sheet);
            (State::Ranked(ranking), Answer::Done)
        }
        _ => (State::Open(sheet), Answer::Misplaced),
    }
}

// Makes one call on a ranking.
fn on_ranking<K: Opens + Copy>(
    mut ranking: Ranking<K>,
    call: Call<K>,
    memory: &mut LentMemory<'_, K>,
) -> (State<K>, Answer<K>)
    ensures stepped { Stepped K.Kind.worth K.Kind.ranges (Ranked ranking) result.0 (lists_of memory.old) (lists_of memory.new) call result.1 }
    ensures parts { SameLoans memory.old memory.new }
{
    match call {
        Call::Take(room) => {
            let answer = take_into(
                &mut ranking,
                room,
                memory.weights,
                memory.sets,
                memory.candidates,
                memory.nodes,
                memory.merges,
                memory.potentials,
            );
            (State::Ranked(ranking), answer)
        }
        Call::End => {
            let sheet = ranking::end(ranking);
            (State::Open(sheet), Answer::Done)
        }
        _ => (State::Ranked(ranking), Answer::Misplaced),
    }
}

// Makes one call where the run stands, and says where it stands then.
fn step<K: Opens + Copy>(
    state: State<K>,
    call: Call<K>,
    memory: &mut LentMemory<'_, K>,
) -> (State<K>, Answer<K>)
    ensures stepped { Stepped K.Kind.worth K.Kind.ranges state result.0 (lists_of memory.old) (lists_of memory.new) call result.1 }
    ensures parts { SameLoans memory.old memory.new }
{
    match state {
        State::Open(sheet) => on_sheet(sheet, call, memory.weights, memory.sets),
        State::Ranked(ranking) => on_ranking(ranking, call, memory),
    }
}

// Opens a sheet; of the memory only the sets are written.
fn opened<K: Opens + Copy>(
    words: usize,
    weights: &mut [K],
    sets: &mut [u64],
    candidates: &mut [Candidate<K>],
    nodes: &mut [Node<K>],
    merges: &mut [Node<K>],
    potentials: &mut [Root<K>],
) -> Result<Sheet<K>, Refusal>
    ensures opened { Answered (open_check words (part_lengths (lists weights.old sets.old candidates.old nodes.old merges.old potentials.old))) result (sets.new ≡ sets.old) (IfOk result (λ s. s.words ≡ words) × Holds words no_arcs weights.old weights.new sets.old sets.new) }
    ensures law { IfOk result (λ s. HoldsArcs K.Kind.worth K.Kind.ranges s.words weights.new sets.new no_arcs) }
    ensures weights { weights.new ≡ weights.old }
    ensures candidates { candidates.new ≡ candidates.old }
    ensures nodes { nodes.new ≡ nodes.old }
    ensures merges { merges.new ≡ merges.old }
    ensures potentials { potentials.new ≡ potentials.old }
{
    let spare = Spare {
        candidates,
        nodes,
        merges,
        potentials,
    };
    sheet::open(words, weights, sets, spare)
}

// Whether there is a turn for each call.
fn turns_for<K>(calls: &[Call<K>], turns: &[Turn<K>]) -> Result<(), Refusal>
    ensures { result ≡ checked (turns_check (length calls.now) (length turns.now)) }
{
    if turns.len() < calls.len() {
        return Err(Refusal::ShortSpace);
    }
    Ok(())
}

// Makes the calls in their order, the first on an open sheet, and notes each with its answer.
fn make_calls<K: Opens + Copy>(
    sheet: Sheet<K>,
    calls: &[Call<K>],
    memory: &mut LentMemory<'_, K>,
    turns: &mut [Turn<K>],
)
    requires turns { length calls.now ≤ length turns.old }
    requires memory { too_short sheet.words (part_lengths (lists_of memory.old)) ≡ false }
    ensures ran { (first : Run K) → Begins K.Kind.worth K.Kind.ranges sheet.words first (lists_of memory.old) → Ran K.Kind.worth K.Kind.ranges sheet.words first calls.now (lists_of memory.old) (lists_of memory.new) turns.old turns.new }
    ensures parts { SameLoans memory.old memory.new }
{
    let mut state = State::Open(sheet);
    // by the place: of what is written over `turns.iter_mut()` nothing is known after the loop
    for (i, call) in calls.iter().enumerate() {
        let (next, answer) = step(state, *call, memory);
        state = next;
        turns[i] = Turn {
            call: *call,
            answer,
        };
    }
    drop(state);
}

/// Opens a sheet of so many words, makes the calls in their order, and notes each with its answer.
pub fn run<K: Opens + Copy>(
    words: usize,
    calls: &[Call<K>],
    memory: &mut LentMemory<'_, K>,
    turns: &mut [Turn<K>],
) -> Result<(), Refusal>
    ensures ran { Answered (run_check words (part_lengths (lists_of memory.old)) (length calls.now) (length turns.old)) result ((lists_of memory.new ≡ lists_of memory.old) × (turns.new ≡ turns.old)) (Ran K.Kind.worth K.Kind.ranges words [] calls.now (lists_of memory.old) (lists_of memory.new) turns.old turns.new) }
    ensures parts { SameLoans memory.old memory.new }
{
    turns_for(calls, turns)?;
    let sheet = opened(
        words,
        memory.weights,
        memory.sets,
        memory.candidates,
        memory.nodes,
        memory.merges,
        memory.potentials,
    )?;
    make_calls(sheet, calls, memory, turns);
    Ok(())
}

// Reads a file; of the memory only weights and sets are written.
fn read_in<K: Recorded + Copy>(
    file: &[u8],
    weights: &mut [K],
    sets: &mut [u64],
    candidates: &mut [Candidate<K>],
    nodes: &mut [Node<K>],
    merges: &mut [Node<K>],
    potentials: &mut [Root<K>],
) -> Result<Sheet<K>, FileFault>
    ensures read { ReadAs K.format (part_lengths (lists weights.old sets.old candidates.old nodes.old merges.old potentials.old)) file.now result weights.old weights.new sets.old sets.new }
    ensures law { HeldAfter K.format K.Kind.worth K.Kind.ranges file.now result weights.new sets.new }
    ensures candidates { candidates.new ≡ candidates.old }
    ensures nodes { nodes.new ≡ nodes.old }
    ensures merges { merges.new ≡ merges.old }
    ensures potentials { potentials.new ≡ potentials.old }
{
    let spare = Spare {
        candidates,
        nodes,
        merges,
        potentials,
    };
    file::read(file, weights, sets, spare)
}

/// Reads a file, makes the calls on its sheet in their order, and notes each with its answer. Refused with 14 at place 0 where the turns
/// are fewer than the calls, else as `file::read` is; a file that is refused leaves the turns as they were.
pub fn run_file<K: Recorded + Copy>(
    file: &[u8],
    calls: &[Call<K>],
    memory: &mut LentMemory<'_, K>,
    turns: &mut [Turn<K>],
) -> Result<(), FileFault>
    ensures ran { RanFile K.format K.Kind.worth K.Kind.ranges file.now calls.now (lists_of memory.old) (lists_of memory.new) turns.old turns.new result }
    ensures parts { SameLoans memory.old memory.new }
{
    turns_for(calls, turns)?;
    let sheet = read_in(
        file,
        memory.weights,
        memory.sets,
        memory.candidates,
        memory.nodes,
        memory.merges,
        memory.potentials,
    )?;
    make_calls(sheet, calls, memory, turns);
    Ok(())
}

/// What follows from the law, for every kind: a ranking hands out no tree twice, skips none, and its weights never rise; the same calls
/// are answered alike after runs that have come to the same arcs, whatever calls those were; and so any two runs of the same calls
/// are answered alike, whatever memory they are lent and whatever it holds, if only it is long enough. The puts of a file leave the arcs
/// that its reader leaves, and a run on its sheet is answered as one by hand that puts the same first.
pub fn laws<K: Opens>()
    ensures truly { RanksTruly K.Kind.worth K.Kind.ranges }
    ensures settled { CallsSettle K.Kind.worth K.Kind.ranges }
    ensures alike { RunsAlike K.Kind.worth K.Kind.ranges }
    ensures fresh { FreshAlike K.Kind.worth K.Kind.ranges }
    ensures file { FileStands K }
    ensures by_hand { ByHandAlike K.Kind.worth K.Kind.ranges }
{}
