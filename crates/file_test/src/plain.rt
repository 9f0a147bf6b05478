// The first fault of a file, and the arcs that its records name, read from the bytes alone. This reading shares nothing with
// the reader that it stands beside, so its kinds and faults are the numbers that stand in a file and in its refused line.
ghost use Rattle.std.specs.Prelude.{◌<◌};

// A byte of the file; 0 beyond its end.
fn at(file: &[u8], place: usize) -> u8 {
    file.get(place).copied().unwrap_or(0)
}

// The number of the file's kind.
pub(crate) fn kind(file: &[u8]) -> u8 {
    at(file, 3)
}

// How many words the file's line has.
pub(crate) fn words(file: &[u8]) -> usize {
    usize::from(at(file, 4))
}

// How long a record is.
fn width(file: &[u8]) -> usize
    ensures { 0 < result }
{
    if kind(file) == 3 { 7 } else { 6 }
}

// Whether four bytes are a score that is an entry.
fn score_entry(bytes: [u8; 4]) -> bool {
    (-1_000_000..=1_000_000).contains(&i32::from_be_bytes(bytes))
}

// Whether the bytes of a weight are an entry of the kind with this number.
fn entry(kind: u8, weight: &[u8]) -> bool {
    match (kind, weight) {
        (2, [a, b, c, d]) => u32::from_be_bytes([*a, *b, *c, *d]) <= 1_000_000,
        (3, [mark, a, b, c, d]) => *mark <= 9 && score_entry([*a, *b, *c, *d]),
        (_, [a, b, c, d]) => score_entry([*a, *b, *c, *d]),
        _ => false,
    }
}

// The fault of the record at this place, by its number and place.
fn check_record(file: &[u8], record: &[u8], place: usize) -> Result<(), (u8, usize)> {
    let [head, dependent, weight @ ..] = record else {
        return Err((12, 1));
    };
    let words = at(file, 4);
    if *dependent < 1 || words < *dependent {
        return Err((3, place.saturating_add(1)));
    }
    if words < *head {
        return Err((4, place));
    }
    if head == dependent {
        return Err((5, place.saturating_add(1)));
    }
    if !entry(kind(file), weight) {
        return Err((6, place.saturating_add(2)));
    }
    Ok(())
}

// The fault of the bytes before the records.
fn check_frame(file: &[u8]) -> Result<(), (u8, usize)> {
    if at(file, 0) != 1 {
        return Err((11, 0));
    }
    let [_, high, low, rest @ ..] = file else {
        return Err((12, 1));
    };
    let told = usize::from(u16::from_be_bytes([*high, *low]));
    if told < 2 || told > 11_202 || told != rest.len() {
        return Err((12, 1));
    }
    if !(1..=3).contains(&kind(file)) {
        return Err((13, 3));
    }
    if !(1..=40).contains(&words(file)) {
        return Err((1, 4));
    }
    if (file.len() - 5) % width(file) != 0 {
        return Err((12, 1));
    }
    Ok(())
}

// The first fault of a file.
pub(crate) fn check(file: &[u8]) -> Result<(), (u8, usize)> {
    check_frame(file)?;
    let width = width(file);
    let records = file.get(5..).unwrap_or(&[]).chunks(width);
    for (place, record) in (5..).step_by(width).zip(records) {
        check_record(file, record, place)?;
    }
    Ok(())
}

// Whether some record names the arc.
pub(crate) fn named(file: &[u8], head: usize, dependent: usize) -> bool {
    let mut records = file.get(5..).unwrap_or(&[]).chunks(width(file));
    records.any(|record| usize::from(at(record, 0)) == head
        && usize::from(at(record, 1)) == dependent)
}
