// Reads the file of a sheet from standard input, and writes each step: its kind, its words, its records, and the arcs that
// stand in the end; or the refusal with its number and byte place.
#![tactic(auto)]

ghost use Rattle.file.specs.Reading.{record_count};
ghost use Rattle.penfile.specs.Files.{FileShown, file_shown, kind_shown};
ghost use Rattle.penfile.specs.Lines.{all_standing, arc_line, arc_lines, record_lines, standing_into};
ghost use Rattle.sheet.specs.Arcs.{arcs_in};
ghost use Rattle.std.specs.Io.KnownBytes.{Appends};
ghost use Rattle.std.specs.List.{AllByRecursion};
ghost use Rattle.std.specs.Prelude.{◌≡◌, ◌+◌, ◌≤◌, ◌++◌, true, IfOk, OnOk};
ghost use Rattle.weight.specs.Range.{entry_in};

use console::{LineError, ended, refuse_arguments};
use desk::Memory;
use file::{FileKind, Recorded, kind_of};
use filing::{read_file, read_sheet, write_fault};
use std::alloc::{AllocError, Global};
use std::io;
use std::io::{Read, Write};
use weight::{Cost, Mark, Score};
use word_set::holds;

// An arc that stands, with its weight.
#[derive(Clone, Copy)]
struct Standing<K> {
    head: usize,
    dependent: usize,
    weight: K,
}

// Writes the arc that each record names, where a weight has so many bytes.
fn write_records<W: Write>(file: &[u8], width: usize, out: &mut W) -> io::Result<()>
    requires { width ≤ 5 }
    ensures { OnOk result (Appends (W.contents out.old) (W.contents out.new) (record_lines width file.now (record_count width file.now))) }
{
    let count = file.len().saturating_sub(5) / (width + 2);
    for number in 0..count {
        let at = 5 + (width + 2) * number;
        let head = file[at];
        let dependent = file[at + 1];
        writeln!(out, "record {number}: arc {head} to {dependent}")?;
    }
    Ok(())
}

// Puts the arcs that stand into a word behind the others.
fn push_into<K: Recorded + Copy>(
    words: usize,
    dependent: usize,
    memory: &Memory<K>,
    arcs: &mut Vec<Standing<K>>,
) -> Result<(), AllocError>
    requires few { words ≤ 40 }
    requires word { (1 ≤ dependent) × (dependent ≤ words) }
    ensures { OnOk result (arcs.new.items ≡ arcs.old.items ++ standing_into (arcs_in words memory.now.weights.items memory.now.sets.items) dependent (words + 1)) }
{
    let heads = memory.sets[dependent - 1];
    for head in 0..words + 1 {
        if holds(heads, head) {
            let weight = memory.weights[(dependent - 1) * (words + 1) + head];
            arcs.push(Standing {
                head,
                dependent,
                weight,
            })?;
        }
    }
    Ok(())
}

// All arcs that stand on a line of so many words.
fn arcs_of<K: Recorded + Copy>(
    heap: Global,
    words: usize,
    memory: &Memory<K>,
) -> Result<Vec<Standing<K>>, AllocError>
    requires { words ≤ 40 }
    ensures { IfOk result (λ arcs. arcs.items ≡ all_standing words (arcs_in words memory.now.weights.items memory.now.sets.items) words) }
{
    let mut arcs = Vec::new(heap);
    for dependent in 1..words + 1 {
        push_into(words, dependent, memory, &mut arcs)?;
    }
    Ok(arcs)
}

// Writes an arc and its weight.
fn write_arc<K: Recorded, W: Write>(arc: &Standing<K>, out: &mut W) -> io::Result<()>
    requires { entry_in K.Kind.ranges (K.Kind.worth arc.now.weight) ≡ true }
    ensures { OnOk result (Appends (W.contents out.old) (W.contents out.new) (arc_line K.Kind.worth arc.now)) }
{
    let mut space = [0; 64];
    let long = arc.weight.show(&mut space).unwrap();
    let head = arc.head;
    let dependent = arc.dependent;
    write!(out, "arc {head} to {dependent} stands: ")?;
    out.write_all(&space[..long])?;
    out.write_all(b"\n")
}

// Writes the arcs, and how many they are.
fn write_arcs<K: Recorded, W: Write>(arcs: &[Standing<K>], out: &mut W) -> io::Result<()>
    requires { AllByRecursion (λ arc. entry_in K.Kind.ranges (K.Kind.worth arc.weight) ≡ true) arcs.now }
    ensures { OnOk result (Appends (W.contents out.old) (W.contents out.new) (arc_lines K.Kind.worth arcs.now)) }
{
    for arc in arcs {
        write_arc(arc, out)?;
    }
    let standing = arcs.len();
    writeln!(out, "arcs: {standing}")
}

// Reads a file of a kind, and writes its records and the arcs that stand in the end.
fn show<K: Recorded + Copy, W: Write>(heap: Global, file: &[u8], out: &mut W) -> io::Result<()>
    ensures { OnOk result (Appends (W.contents out.old) (W.contents out.new) (kind_shown K.format K.Kind.worth file.now)) }
{
    let mut memory = Memory::<K>::new(heap)?;
    match read_sheet(file, &mut memory) {
        Err(fault) => write_fault(fault, out),
        Ok(sheet) => {
            let arcs = arcs_of(heap, sheet.words(), &memory)?;
            write_records(file, K::bytes(), out)?;
            write_arcs(&arcs, out)
        }
    }
}

// Writes what a file of any kind says.
fn show_kind<W: Write>(heap: Global, file: &[u8], out: &mut W) -> io::Result<()>
    ensures { OnOk result (Appends (W.contents out.old) (W.contents out.new) (file_shown file.now)) }
{
    let kind = match kind_of(file) {
        Ok(kind) => kind,
        Err(fault) => return write_fault(fault, out),
    };
    writeln!(out, "kind: {kind}")?;
    let words = file.get(4).copied().unwrap_or(0);
    writeln!(out, "words: {words}")?;
    match kind {
        FileKind::Score => show::<Score, W>(heap, file, out),
        FileKind::Cost => show::<Cost, W>(heap, file, out),
        FileKind::Mark => show::<Mark<Score>, W>(heap, file, out),
    }
}

/// Reads a file from the input, to its end or so far that it is longer than any, and writes its steps: its kind, its number of words, the arc
/// that each record names, the arcs that stand in the end with their weights, and how many these are. Of a refused file it writes the line of
/// the first fault, behind the kind and the words where a kind is told, and that is no error: only reading, writing and want of memory make it
/// fail.
pub fn show_file<R: Read + Drop, W: Write>(heap: Global, input: R, out: &mut W) -> io::Result<()>
    ensures { OnOk result (FileShown (R.remaining input) (W.contents out.old) (W.contents out.new)) }
{
    let file = read_file(heap, input)?;
    show_kind(heap, &file, out)
}

// Shows the file on standard input.
fn show_input(rt: &HostRuntime) -> Result<(), LineError> {
    refuse_arguments(rt, "penfile < FILE")?;
    show_file(rt.alloc(), rt.stdin(), &mut rt.stdout())?;
    Ok(())
}

fn main(rt: HostRuntime) -> io::Result<()> {
    ended(&rt, show_input(&rt))
}

#[cfg(test)]
mod tests;
