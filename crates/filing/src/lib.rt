// What programs share that work on a sheet's file: how much of an input they read, and the line of a refused file.
#![tactic(auto)]

ghost use Rattle.desk.specs.Parts.{parts_of};
ghost use Rattle.file.specs.Reading.{HeldAfter, ReadAs};
ghost use Rattle.filing.specs.Inputs.{ReadIn, fault_text};
ghost use Rattle.filing.specs.Outcomes.{ReadsTruly};
ghost use Rattle.ranking.specs.Calls.{part_lengths};
ghost use Rattle.std.specs.Io.KnownBytes.{Appends};
ghost use Rattle.std.specs.Prelude.{◌≡◌, IfOk, OnOk};

use desk::Memory;
use file::{FileFault, Recorded};
use lines::refused_line;
use sheet::Sheet;
use std::alloc::Global;
use std::io;
use std::io::{Read, Write};

// One byte more than the longest file has, so that a longer one is refused for its length.
const MOST_BYTES: u64 = 11_206;

/// Reads a file to its end, or so far that it is longer than any.
pub fn read_file<R: Read + Drop>(heap: Global, input: R) -> io::Result<Vec<u8>>
    ensures { IfOk result (λ file. ReadIn (R.remaining input) file.items) }
{
    let mut file = Vec::new(heap);
    input.take(MOST_BYTES).read_to_end(&mut file)?;
    Ok(file)
}

/// Reads a file of the kind into a memory, which has room for any: the sheet that its records leave, or its first fault. It leaves the
/// memory as the reader does, in which no part but the weights and the sets changes.
pub fn read_sheet<K: Recorded + Copy>(
    file: &[u8],
    memory: &mut Memory<K>,
) -> Result<Sheet<K>, FileFault>
    ensures truly { ReadsTruly K.format K.Kind.worth K.Kind.ranges file.now (parts_of memory.new) result }
    ensures answer { ReadAs K.format (part_lengths (parts_of memory.old)) file.now result memory.old.weights.items memory.new.weights.items memory.old.sets.items memory.new.sets.items }
    ensures law { HeldAfter K.format K.Kind.worth K.Kind.ranges file.now result memory.new.weights.items memory.new.sets.items }
    ensures others { parts_of memory.new ≡ record (parts_of memory.old) { weights = memory.new.weights.items; sets = memory.new.sets.items } }
{
    memory.read(file)
}

/// Writes the line of a refused file: the number of the fault and the place of its byte.
pub fn write_fault<W: Write>(fault: FileFault, out: &mut W) -> io::Result<()>
    ensures { OnOk result (Appends (W.contents out.old) (W.contents out.new) (fault_text fault)) }
{
    let mut space = [0; 64];
    let long = refused_line(fault.number(), fault.place(), &mut space).unwrap();
    out.write_all(&space[..long])
}
