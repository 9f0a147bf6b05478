// The readers of files.
ghost use Rattle.std.specs.Prelude.{◌≡◌, ℕ, ◌+◌, ◌≤◌, length, None, OnOk};
ghost use Rattle.file.specs.Formats.{cost_format, mark_format, score_format};
ghost use Rattle.file.specs.Reading.{frame_words, HeldAfter, ReadAs, record_count, words_told};
ghost use Rattle.file.specs.Records.{LastStands, put_records, records_check, Judged};
ghost use Rattle.sheet.specs.Arcs.{arcs_in, no_arcs};
ghost use Rattle.sheet.specs.Calls.{Holds, open_check};
ghost use Rattle.sheet.specs.Parts.{lengths_of};

use crate::fault::{FileFault, FileKind, RecordFault};
use crate::format::Recorded;
use crate::frame::kind_of;
use crate::records::put_records;
use refusal::Refusal;
use sheet::{Sheet, Spare, open};
use weight::{Cost, Mark, Score};

// The number of words of a file whose kind was told.
fn words_told<K: Recorded>(file: &[u8], told: FileKind) -> Result<usize, FileFault>
    requires { 5 ≤ length file.now }
    ensures { result ≡ words_told K.format.kind K.format.width file.now told }
{
    if told != K::file_kind() {
        return Err(FileFault::Kind);
    }
    let words = usize::from(file[4]);
    if words == 0 || words > 40 {
        return Err(FileFault::Sheet(Refusal::WordCount));
    }
    if (file.len() - 5) % (K::bytes() + 2) != 0 {
        return Err(FileFault::Length);
    }
    Ok(words)
}

// The number of words that the frame of a file of the kind tells.
fn frame_words<K: Recorded>(file: &[u8]) -> Result<usize, FileFault>
    ensures value { result ≡ frame_words K.format.kind K.format.width file.now }
    ensures long { OnOk result (5 ≤ length file.now) }
{
    let told = kind_of(file)?;
    words_told::<K>(file, told)
}

// How many records a file has.
fn record_count<K: Recorded>(file: &[u8]) -> usize
    requires { 5 ≤ length file.now }
    ensures { result ≡ record_count K.format.width file.now }
{
    (file.len() - 5) / (K::bytes() + 2)
}

// Puts all records of a file on a sheet that was just opened. A record that is refused leaves every arc absent.
fn fill<K: Recorded + Copy>(
    sheet: &Sheet<K>,
    file: &[u8],
    weights: &mut [K],
    sets: &mut [u64],
    spare: Spare<'_, K>,
) -> Result<(), RecordFault>
    requires room { open_check sheet.now.words (lengths_of weights.old sets.old spare) ≡ None }
    requires long { 5 ≤ length file.now }
    ensures { Judged (records_check K.format sheet.now.words file.now 0 (record_count K.format.width file.now)) result (Holds sheet.now.words no_arcs weights.old weights.new sets.old sets.new) (Holds sheet.now.words (put_records K.format file.now 0 (record_count K.format.width file.now) (arcs_in sheet.now.words weights.old sets.old)) weights.old weights.new sets.old sets.new) }
{
    let count = record_count::<K>(file);
    let told = put_records(sheet, weights, sets, file, count);
    if told.is_err() {
        // the same opening as before, which passes again
        let _ = open(sheet.words(), weights, sets, spare);
    }
    told
}

/// Opens a sheet and puts the records of a file of the kind on it.
pub fn read<K: Recorded + Copy>(
    file: &[u8],
    weights: &mut [K],
    sets: &mut [u64],
    spare: Spare<'_, K>,
) -> Result<Sheet<K>, FileFault>
    ensures answer { ReadAs K.format (lengths_of weights.old sets.old spare.entry) file.now result weights.old weights.new sets.old sets.new }
    ensures law { HeldAfter K.format K.Kind.worth K.Kind.ranges file.now result weights.new sets.new }
{
    let words = frame_words::<K>(file)?;
    let sheet = open(words, weights, sets, spare)?;
    fill(&sheet, file, weights, sets, spare)?;
    Ok(sheet)
}

/// After the puts of an accepted file an arc stands with the weight of the last record that names it. The formats are those by which
/// `read` reads the three kinds.
#[tactic(auto, using(crate::proofs::Lasts::last_stands))]
pub fn last_stands()
    ensures scores { LastStands score_format }
    ensures costs { LastStands cost_format }
    ensures marks { LastStands mark_format }
    ensures kinds { (⟦<Score as Recorded>⟧.format ≡ score_format) × (⟦<Cost as Recorded>⟧.format ≡ cost_format) × (⟦<Mark<Score> as Recorded>⟧.format ≡ mark_format) }
{}
