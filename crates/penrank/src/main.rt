// Reads the file of a sheet from standard input and writes the ranking of its trees: one line for each tree, the heaviest
// first, and a last line that tells why there is no further; or the one line of a refused file.
#![tactic(auto)]

ghost use Rattle.console.specs.Answers.{Writes};
ghost use Rattle.desk.specs.Parts.{parts_of};
ghost use Rattle.lines.specs.Lines.{last_text, tree_text};
ghost use Rattle.penrank.specs.Files.{FileText, KindText, OneText, FileRanked};
ghost use Rattle.penrank.specs.Rankings.{RankingText};
ghost use Rattle.penrank.specs.Steps.{LineWritten};
ghost use Rattle.ranking.specs.Memory.{StandsFor};
ghost use Rattle.sheet.specs.Arcs.{Arcs, HoldsArcs, arcs_in};
ghost use Rattle.std.specs.Io.KnownBytes.{Appends};
ghost use Rattle.std.specs.Prelude.{◌≡◌, ℕ, ◌^◌, ◌≤◌, List, length, IfOk, OnOk};
ghost use Rattle.weight.specs.Worth.{Within};

use console::{LineError, ended, refuse_arguments};
use desk::Memory;
use file::{FileKind, Recorded, kind_of};
use filing::{read_file, read_sheet, write_fault};
use lines::{Last, last_line, tree_line};
use ranking::{Ranking, Taken, begin};
use sheet::Sheet;
use std::alloc::Global;
use std::io;
use std::io::{Read, Write};
use weight::{Cost, Mark, Score};

// Writes the line of a tree.
fn write_tree<K: Recorded, W: Write>(taken: &Taken<K>, heads: &[u8], out: &mut W) -> io::Result<()>
    requires forty { length heads.now ≤ 40 }
    requires small { Within (2 ^ 40) (K.Kind.worth taken.now.weight) }
    ensures { OnOk result (Appends (W.contents out.old) (W.contents out.new) (tree_text taken.now.count (K.Kind.worth taken.now.weight) heads.now)) }
{
    let mut space = [0; 256];
    let long = tree_line(taken.count, &taken.weight, heads, &mut space).unwrap();
    out.write_all(&space[..long])
}

// Writes the last line.
fn write_last<W: Write>(last: Last, out: &mut W) -> io::Result<()>
    ensures { OnOk result (Appends (W.contents out.old) (W.contents out.new) (last_text last)) }
{
    let mut space = [0; 64];
    let long = last_line(last, &mut space).unwrap();
    out.write_all(&space[..long])
}

// Takes the next tree and writes its line, or the last line where no tree is left; whether there was one.
fn write_next<K: Recorded + Copy, W: Write>(
    words: usize,
    ranking: &mut Ranking<K>,
    memory: &mut Memory<K>,
    out: &mut W,
) -> io::Result<bool>
    requires line { words ≡ ranking.old.sheet.words }
    requires stands { (arcs : Arcs K) × (ts : List (List ℕ)) × StandsFor K.Kind.worth K.Kind.ranges ranking.old (parts_of memory.old) arcs ts }
    ensures words { ranking.new.sheet.words ≡ words }
    ensures line { (arcs : Arcs K) (ts : List (List ℕ)) → StandsFor K.Kind.worth K.Kind.ranges ranking.old (parts_of memory.old) arcs ts → IfOk result (λ more. LineWritten K.Kind.worth K.Kind.ranges words arcs ts ranking.new (parts_of memory.new) more (W.contents out.old) (W.contents out.new)) }
{
    let mut heads = [0; 40];
    match memory.take(ranking, &mut heads) {
        Ok(taken) => {
            write_tree(&taken, &heads[..words], out)?;
            Ok(true)
        }
        Err(why) => {
            write_last(Last::try_from(why).unwrap(), out)?;
            Ok(false)
        }
    }
}

// Takes until refused, and writes each line.
fn write_ranking<K: Recorded + Copy, W: Write>(
    sheet: Sheet<K>,
    memory: &mut Memory<K>,
    out: &mut W,
) -> io::Result<()>
    requires { HoldsArcs K.Kind.worth K.Kind.ranges sheet.words memory.old.weights.items memory.old.sets.items (arcs_in sheet.words memory.old.weights.items memory.old.sets.items) }
    ensures { OnOk result (Writes (W.contents out.old) (W.contents out.new) (RankingText K.Kind.worth sheet.words (arcs_in sheet.words memory.old.weights.items memory.old.sets.items))) }
{
    let words = sheet.words();
    let mut ranking = begin(sheet);
    while write_next(words, &mut ranking, memory, out)? {}
    Ok(())
}

// Reads a file of a kind and writes its ranking, or why it is refused.
fn rank<K: Recorded + Copy, W: Write>(heap: Global, file: &[u8], out: &mut W) -> io::Result<()>
    ensures { OnOk result (Writes (W.contents out.old) (W.contents out.new) (KindText K.format K.Kind.worth file.now)) }
{
    let mut memory = Memory::<K>::new(heap)?;
    match read_sheet(file, &mut memory) {
        Ok(sheet) => write_ranking(sheet, &mut memory, out),
        Err(fault) => write_fault(fault, out),
    }
}

// Writes the ranking of a file of any kind, or why it is refused.
fn rank_kind<W: Write>(heap: Global, file: &[u8], out: &mut W) -> io::Result<()>
    ensures { OnOk result (Writes (W.contents out.old) (W.contents out.new) (FileText file.now)) }
{
    match kind_of(file) {
        Ok(FileKind::Score) => rank::<Score, W>(heap, file, out),
        Ok(FileKind::Cost) => rank::<Cost, W>(heap, file, out),
        Ok(FileKind::Mark) => rank::<Mark<Score>, W>(heap, file, out),
        Err(fault) => write_fault(fault, out),
    }
}

/// Reads the file that the input gives, and writes the ranking of its sheet behind what the output holds: a line for each tree, and a
/// last line that tells why there is no further; or, of a file that is refused, the one line of its first fault. It reads at most one
/// byte more than the longest file has. Only reading, writing and want of memory make it fail.
pub fn rank_file<R: Read + Drop, W: Write>(heap: Global, input: R, out: &mut W) -> io::Result<()>
    ensures { OnOk result (FileRanked (R.remaining input) (W.contents out.old) (W.contents out.new)) }
{
    let file = read_file(heap, input)?;
    rank_kind(heap, &file, out)
}

/// A file settles every byte that is written for it.
pub fn laws()
    ensures { OneText }
{}

// Ranks the file on standard input.
fn rank_input(rt: &HostRuntime) -> Result<(), LineError> {
    refuse_arguments(rt, "penrank < FILE")?;
    rank_file(rt.alloc(), rt.stdin(), &mut rt.stdout())?;
    Ok(())
}

fn main(rt: HostRuntime) -> io::Result<()> {
    ended(&rt, rank_input(&rt))
}

#[cfg(test)]
mod tests;
