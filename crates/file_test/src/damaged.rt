use crate::plain::{check, kind, named, words};
use desk::Memory;
use file::{FileFault, Recorded, read};
use sheet::Spare;
use std::alloc::{AllocError, Global};
use std::test::Fail;
use weight::{Cost, Mark, Score};
use word_set::holds;

// Whether just the arcs that the records name stand, and the sets beyond the line are as they were.
fn stand_as_named(file: &[u8], line: &[u64], beyond: &[u64]) -> bool {
    let mut sets = (1..).zip(line);
    sets.all(|(dependent, set)| {
        let stands = |head| head <= words(file) && holds(*set, head);
        (0..41).all(|head| stands(head) == named(file, head, dependent))
    }) && beyond.iter().all(|set| *set == u64::MAX)
}

// Whether no arc of the line stands, and the sets beyond the line are as they were.
fn none_stands(line: &[u64], beyond: &[u64]) -> bool {
    line.iter().all(|set| *set == 0) && beyond.iter().all(|set| *set == u64::MAX)
}

// Whether what the reader of a kind tells, and leaves in sets all of whose bits were up, is what a plain reading tells.
fn agrees<K: Recorded + Copy>(heap: Global, file: &[u8]) -> Result<bool, AllocError> {
    let mut memory = Memory::<K>::new(heap)?;
    memory.sets.fill(u64::MAX);
    let told = memory.read(file).map(drop);
    let (line, beyond) = memory.sets.as_slice().split_at(words(file).min(40));
    let left = match told {
        Ok(()) => stand_as_named(file, line, beyond),
        Err(FileFault::Record(_)) => none_stands(line, beyond),
        Err(_) => memory.sets.iter().all(|set| *set == u64::MAX),
    };
    Ok(left && told.map_err(|fault| (fault.number(), fault.place())) == check(file))
}

// The reader of the file's own kind; that of scores where it has none.
fn reader_agrees(heap: Global, file: &[u8]) -> Result<bool, AllocError> {
    match kind(file) {
        2 => agrees::<Cost>(heap, file),
        3 => agrees::<Mark<Score>>(heap, file),
        _ => agrees::<Score>(heap, file),
    }
}

// A file of each kind, with the greatest and the least entries.
const SCORES: [u8; 29] = [
    1, 0, 26, 1, 2, 0, 1, 0, 15, 66, 64, 0, 2, 0, 0, 0, 8, 1, 2, 255, 240, 189, 192, 2, 1, 0, 0, 0,
    4,
];

const COST: [u8; 11] = [1, 0, 8, 2, 3, 2, 3, 0, 15, 66, 64];

const MARK: [u8; 12] = [1, 0, 9, 3, 2, 0, 1, 9, 255, 240, 189, 192];

#[test]
fn every_front_of_a_file(rt: HostRuntime) -> Result<(), Fail> {
    for long in 0..30 {
        assert!(rt; agrees::<Score>(rt.alloc(), SCORES.get(..long).unwrap_or(&[]))?);
    }
    assert!(rt; !agrees::<Cost>(rt.alloc(), &SCORES)?);
    Ok(())
}

// Whether the reader agrees on a file with each of its bytes changed to every value.
fn changes_agree(heap: Global, good: &[u8]) -> Result<bool, AllocError> {
    let mut file = Vec::from_slice(heap, good)?;
    for (place, was) in good.iter().enumerate() {
        for value in 0..=255 {
            file.as_mut_slice().get_mut(place).map(|byte| *byte = value);
            if !reader_agrees(heap, file.as_slice())? {
                return Ok(false);
            }
        }
        file.as_mut_slice().get_mut(place).map(|byte| *byte = *was);
    }
    Ok(true)
}

#[test]
fn every_byte_changed_to_every_value(rt: HostRuntime) -> Result<(), Fail> {
    assert!(rt; changes_agree(rt.alloc(), &SCORES)?);
    Ok(())
}

#[test]
fn every_byte_of_other_kinds(rt: HostRuntime) -> Result<(), Fail> {
    assert!(rt; changes_agree(rt.alloc(), &COST)?);
    assert!(rt; changes_agree(rt.alloc(), &MARK)?);
    Ok(())
}

// What is compared: the arcs that stand, and the sets beyond the line.
#[test]
fn other_sets_are_told(rt: HostRuntime) {
    assert!(rt; stand_as_named(&SCORES, &[5, 3], &[u64::MAX]));
    assert!(rt; !stand_as_named(&SCORES, &[5, 2], &[u64::MAX]));
    assert!(rt; !stand_as_named(&SCORES, &[5, 3], &[0]));
    assert!(rt; !none_stands(&[0, 1], &[u64::MAX]));
    assert!(rt; !none_stands(&[0, 0], &[0]));
}

// The number and place of the fault that the reader of scores tells of a file, with a memory for so many words.
fn told(heap: Global, file: &[u8], room: usize) -> Result<Result<(), (u8, usize)>, AllocError> {
    let Memory {
        mut weights,
        mut sets,
        candidates,
        nodes,
        merges,
        potentials,
    } = Memory::<Score>::new(heap)?;
    let spare = Spare {
        candidates: &candidates,
        nodes: &nodes,
        merges: &merges,
        potentials: &potentials,
    };
    let told = read(file, &mut weights, &mut sets[..room.min(40)], spare);
    Ok(
        told.map(drop)
            .map_err(|fault| (fault.number(), fault.place())),
    )
}

// Files with one fault or several, and the fault that is told: 11, 12, 13, 1, 12 for a part record, and then the first record's.
const FAULTS: [(&[u8], (u8, usize)); 11] = [
    (&[], (11, 0)),
    (&[1, 0, 5, 1], (12, 1)),
    (&[1, 0, 2, 4, 1], (13, 3)),
    (&[1, 0, 2, 1, 41], (1, 4)),
    (&[1, 0, 3, 1, 41, 0], (1, 4)),
    (&[1, 0, 3, 1, 1, 0], (12, 1)),
    (&[1, 0, 3, 4, 41, 0], (13, 3)),
    (&[1, 0, 8, 1, 1, 0, 0, 0, 0, 0, 1], (3, 6)),
    (&[1, 0, 8, 1, 1, 2, 1, 0, 0, 0, 1], (4, 5)),
    (&[1, 0, 8, 1, 1, 1, 1, 0, 0, 0, 1], (5, 6)),
    (&[1, 0, 8, 1, 1, 0, 1, 0, 15, 66, 65], (6, 7)),
];

// Each refusal at its place, by the reader and by the plain reading.
#[test]
fn known_faults(rt: HostRuntime) -> Result<(), Fail> {
    let heap = rt.alloc();
    for (file, fault) in FAULTS {
        assert_eq!(rt; told(heap, file, 40)?, Err(fault));
        assert_eq!(rt; check(file), Err(fault));
    }
    assert_eq!(rt; told(heap, &SCORES, 1)?, Err((2, 0)));
    assert_eq!(rt; told(heap, &SCORES, 2)?, Ok(()));
    Ok(())
}

// The largest file: forty words with every arc, marks over scores.
fn largest(heap: Global) -> Result<Vec<u8>, AllocError> {
    let mut file = vec![in heap; 1, 43, 194, 3, 40]?;
    for dependent in 1..41 {
        for head in 0..41 {
            if head != dependent {
                file.extend_from_slice(&[head, dependent, head % 10, 0, 0, 0, head + dependent])?;
            }
        }
    }
    Ok(file)
}

#[test]
fn the_largest_file(rt: HostRuntime) -> Result<(), Fail> {
    let heap = rt.alloc();
    let mut file = largest(heap)?;
    assert_eq!(rt; file.len(), 11205);
    assert_eq!(rt; check(file.as_slice()), Ok(()));
    assert!(rt; agrees::<Mark<Score>>(heap, file.as_slice())?);
    assert!(rt; agrees::<Mark<Score>>(heap, file.get(..11204).unwrap_or(&[]))?);
    file.push(0)?;
    assert!(rt; agrees::<Mark<Score>>(heap, file.as_slice())?);
    // the length told rightly, and too great: before the kind and the words are looked at
    file.as_mut_slice().get_mut(2).map(|low| *low = 195);
    assert!(rt; agrees::<Mark<Score>>(heap, file.as_slice())?);
    file.as_mut_slice().get_mut(3).map(|kind| *kind = 4);
    file.as_mut_slice().get_mut(4).map(|words| *words = 41);
    assert_eq!(rt; check(file.as_slice()), Err((12, 1)));
    assert_eq!(rt; told(heap, file.as_slice(), 40)?, Err((12, 1)));
    Ok(())
}
