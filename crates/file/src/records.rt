// The records of a file, put on the sheet one by one.
ghost use Rattle.std.specs.Prelude.{◌≡◌, ℕ, ◌+◌, ◌*◌, ◌^◌, ◌<◌, ◌≤◌, length, None};
ghost use Rattle.file.specs.Records.{field_place, KeptBeyond, put_record, put_records, record_check, record_place, records_check, Judged};
ghost use Rattle.sheet.specs.Arcs.{arcs_in};
ghost use Rattle.sheet.specs.Calls.{Holds, memory_check};

use crate::fault::RecordFault;
use crate::format::Recorded;
use refusal::Refusal;
use sheet::{Sheet, put};

// The first byte of the field at fault, in a record that begins at a place.
fn field_place(at: usize, refusal: Refusal) -> usize
    requires { at + 2 < 2 ^ 64 }
    ensures { result ≡ field_place at refusal }
{
    match refusal {
        Refusal::NoDependent => at + 1,
        Refusal::SelfLoop => at + 1,
        Refusal::NoEntry => at + 2,
        _ => at,
    }
}

// Puts one record on the sheet.
fn put_record<K: Recorded + Copy>(
    sheet: &Sheet<K>,
    weights: &mut [K],
    sets: &mut [u64],
    file: &[u8],
    number: usize,
) -> Result<(), RecordFault>
    requires room { memory_check sheet.now.words (length weights.old) (length sets.old) ≡ None }
    requires whole { record_place K.format.width number + (K.format.width + 2) ≤ length file.now }
    ensures { Judged (record_check K.format sheet.now.words file.now number) result ((weights.new ≡ weights.old) × (sets.new ≡ sets.old)) (Holds sheet.now.words (put_record K.format file.now number (arcs_in sheet.now.words weights.old sets.old)) weights.old weights.new sets.old sets.new) }
{
    let at = 5 + (K::bytes() + 2) * number;
    let weight = K::weight(file, at + 2).unwrap();
    put(
        sheet,
        weights,
        sets,
        usize::from(file[at]),
        usize::from(file[at + 1]),
        weight,
    )
    .map_err(|refusal| RecordFault {
        record: number,
        place: field_place(at, refusal),
        refusal,
    })
}

// Puts the first records on the sheet, so many, up to one that is refused.
pub(crate) fn put_records<K: Recorded + Copy>(
    sheet: &Sheet<K>,
    weights: &mut [K],
    sets: &mut [u64],
    file: &[u8],
    count: usize,
) -> Result<(), RecordFault>
    requires room { memory_check sheet.now.words (length weights.old) (length sets.old) ≡ None }
    requires whole { record_place K.format.width count ≤ length file.now }
    ensures { Judged (records_check K.format sheet.now.words file.now 0 count) result (KeptBeyond sheet.now.words weights.old weights.new sets.old sets.new) (Holds sheet.now.words (put_records K.format file.now 0 count (arcs_in sheet.now.words weights.old sets.old)) weights.old weights.new sets.old sets.new) }
{
    // by the number, which a fault tells beside the place
    for number in 0..count {
        put_record(sheet, weights, sets, file, number)?;
    }
    Ok(())
}
