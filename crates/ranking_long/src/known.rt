// Sheets whose trees are known, and the limits of sheets and rankings.
use bench::shows;
use desk::Memory;
use ranking::Ranking;
use refusal::Refusal;
use sheet::Sheet;
use std::process::Abort;
use std::test::Fail;
use weight::{Cost, Mark, Opens, Score};

// A take hands out these heads at the weight that is shown so, as the tree with this number.
fn hands<K: Opens + Copy>(
    rt: &impl Abort,
    memory: &mut Memory<K>,
    ranking: &mut Ranking<K>,
    count: usize,
    heads: &[u8],
    shown: &[u8],
) -> Result<(), Refusal> {
    let mut space = [0; 3];
    let taken = memory.take(ranking, &mut space)?;
    assert_eq!(rt; taken.count, count);
    assert!(rt; space.starts_with(heads));
    assert!(rt; shows(&taken.weight, shown));
    Ok(())
}

// The sheet hands out one tree, then the other, and then no more.
fn hands_two<K: Opens + Copy>(
    rt: &impl Abort,
    memory: &mut Memory<K>,
    sheet: Sheet<K>,
    (heads, shown): (&[u8], &[u8]),
    (next_heads, next_shown): (&[u8], &[u8]),
) -> Result<(), Refusal> {
    let mut ranking = ranking::begin(sheet);
    hands(rt, memory, &mut ranking, 1, heads, shown)?;
    hands(rt, memory, &mut ranking, 2, next_heads, next_shown)?;
    let more = memory.take(&mut ranking, &mut [0; 3]);
    assert_eq!(rt; more.err(), Some(Refusal::NoMore));
    Ok(())
}

// Opens a sheet of two words, whose four arcs have these weights: root to first and second, first to second, second to first.
fn open_two<K: Opens + Copy>(
    memory: &mut Memory<K>,
    [first, second, down, up]: [K; 4],
) -> Result<Sheet<K>, Refusal> {
    let sheet = memory.open(2)?;
    memory.put(&sheet, 0, 1, first)?;
    memory.put(&sheet, 0, 2, second)?;
    memory.put(&sheet, 1, 2, down)?;
    memory.put(&sheet, 2, 1, up)?;
    Ok(sheet)
}

// None of the weights is an entry.
fn refuses<K: Opens + Copy>(
    rt: &impl Abort,
    memory: &mut Memory<K>,
    sheet: &Sheet<K>,
    beyond: &[K],
) {
    for weight in beyond {
        let told = memory.put(sheet, 0, 1, *weight);
        assert_eq!(rt; told, Err(Refusal::NoEntry));
    }
}

#[test]
fn known_scores(rt: HostRuntime) -> Result<(), Fail> {
    let mut memory = Memory::new(rt.alloc())?;
    let sheet = open_two(&mut memory, [10, 8, 3, 4].map(Score::new))?;
    hands_two(&rt, &mut memory, sheet, (&[0, 1], b"13"), (&[2, 0], b"12"))?;
    let sheet = open_two(&mut memory, [10, 8, 1, 9].map(Score::new))?;
    hands_two(&rt, &mut memory, sheet, (&[2, 0], b"17"), (&[0, 1], b"11"))?;
    let sheet = memory.open(3)?;
    memory.put(&sheet, 0, 1, Score::new(1))?;
    memory.put(&sheet, 0, 2, Score::new(2))?;
    memory.put(&sheet, 1, 2, Score::new(10))?;
    memory.put(&sheet, 2, 3, Score::new(10))?;
    memory.put(&sheet, 3, 1, Score::new(10))?;
    hands_two(
        &rt,
        &mut memory,
        sheet,
        (&[3, 0, 2], b"22"),
        (&[0, 1, 2], b"21"),
    )?;
    Ok(())
}

#[test]
fn known_costs_and_marks(rt: HostRuntime) -> Result<(), Fail> {
    let mut costs = Memory::new(rt.alloc())?;
    let sheet = open_two(&mut costs, [10, 8, 3, 4].map(Cost::new))?;
    hands_two(&rt, &mut costs, sheet, (&[2, 0], b"-12"), (&[0, 1], b"-13"))?;
    let mut marks = Memory::new(rt.alloc())?;
    let weights = [(0, 100), (1, -50), (0, 7), (0, -3)];
    let sheet = open_two(
        &mut marks,
        weights.map(|(mark, score)| Mark::new(mark, Score::new(score))),
    )?;
    hands_two(
        &rt,
        &mut marks,
        sheet,
        (&[2, 0], b"1,-53"),
        (&[0, 1], b"0,107"),
    )?;
    Ok(())
}

// The least and the greatest entry of each kind are ranked; one beyond is refused, and changes nothing.
#[test]
fn ends_of_entries(rt: HostRuntime) -> Result<(), Fail> {
    let mut scores = Memory::new(rt.alloc())?;
    let ends = [1_000_000, -1_000_000, 1_000_000, -1_000_000];
    let sheet = open_two(&mut scores, ends.map(Score::new))?;
    let beyond = [1_000_001, -1_000_001].map(Score::new);
    refuses(&rt, &mut scores, &sheet, &beyond);
    hands_two(
        &rt,
        &mut scores,
        sheet,
        (&[0, 1], b"2000000"),
        (&[2, 0], b"-2000000"),
    )?;
    let mut costs = Memory::new(rt.alloc())?;
    let sheet = open_two(&mut costs, [0, 1_000_000, 0, 1_000_000].map(Cost::new))?;
    refuses(&rt, &mut costs, &sheet, &[Cost::new(1_000_001)]);
    hands_two(
        &rt,
        &mut costs,
        sheet,
        (&[0, 1], b"0"),
        (&[2, 0], b"-2000000"),
    )?;
    let mut marks = Memory::new(rt.alloc())?;
    let marked = |(mark, score)| Mark::new(mark, Score::new(score));
    let ends = [
        (9, 1_000_000),
        (0, -1_000_000),
        (9, 1_000_000),
        (0, -1_000_000),
    ];
    let sheet = open_two(&mut marks, ends.map(marked))?;
    let beyond = [(10, 0), (9, 1_000_001), (0, -1_000_001)].map(marked);
    refuses(&rt, &mut marks, &sheet, &beyond);
    hands_two(
        &rt,
        &mut marks,
        sheet,
        (&[0, 1], b"18,2000000"),
        (&[2, 0], b"0,-2000000"),
    )?;
    Ok(())
}

#[test]
fn limits(rt: HostRuntime) -> Result<(), Fail> {
    let mut memory = Memory::new(rt.alloc())?;
    assert!(rt; memory.open(0).err() == Some(Refusal::WordCount));
    assert!(rt; memory.open(41).err() == Some(Refusal::WordCount));
    let sheet = memory.open(40)?;
    memory.put(&sheet, 40, 1, Score::new(1))?;
    memory.strike(&sheet, 40, 1)?;
    let absent = memory.strike(&sheet, 40, 2);
    assert_eq!(rt; absent, Err(Refusal::AbsentArc));
    Ok(())
}
