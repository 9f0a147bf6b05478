// Lines whose heaviest tree is known: each would be answered otherwise by a mistake that searches are known for.
use crate::lines::Line;
use bench::shows;
use desk::Memory;
use refusal::Refusal;
use search::{Node, Working, best_tree};
use std::process::Abort;
use std::test::Fail;
use weight::{Kind, Mark, Root, Score};

// The search with some heads of the first word barred hands out these heads, at the weight that is shown so.
fn finds<K: Kind + Copy>(
    rt: &impl Abort,
    line: &mut Line<K>,
    barred: u64,
    list: &[u8],
    shown: &[u8],
) -> Result<(), Fail> {
    let mut heads = [0; 3];
    let told = line.search(&[], barred, heads.get_mut(..list.len()).unwrap_or(&mut []))?;
    assert!(rt; shows(&told.ok_or("no tree")?, shown));
    assert_eq!(rt; heads.get(..list.len()), Some(list));
    Ok(())
}

// The heaviest root arc is no part of the heaviest tree.
#[test]
fn root_arc_is_not_fixed_first(rt: HostRuntime) -> Result<(), Fail> {
    let mut line = Line::new(rt.alloc(), 2, 3)?;
    line.put(0, 1, Score::new(10));
    line.put(0, 2, Score::new(8));
    line.put(1, 2, Score::new(1));
    line.put(2, 1, Score::new(9));
    finds(&rt, &mut line, 0, &[2, 0], b"17")?;
    finds(&rt, &mut line, 4, &[0, 1], b"11")
}

// An absent arc is no arc of low weight: there is no tree.
#[test]
fn absent_arcs_stay_out(rt: HostRuntime) -> Result<(), Fail> {
    let mut line = Line::new(rt.alloc(), 2, 3)?;
    line.put(0, 1, Score::new(5));
    line.put(0, 2, Score::new(5));
    let mut heads = [9; 2];
    assert_eq!(rt; line.search(&[], 0, &mut heads), Ok(None));
    assert_eq!(rt; heads, [9; 2]);
    Ok(())
}

// The next tree hangs from another root, and is no change of one head.
#[test]
fn next_tree_may_have_another_root(rt: HostRuntime) -> Result<(), Fail> {
    let mut line = Line::new(rt.alloc(), 3, 3)?;
    line.put(0, 1, Score::new(1));
    line.put(0, 2, Score::new(2));
    line.put(1, 2, Score::new(10));
    line.put(2, 3, Score::new(10));
    line.put(3, 1, Score::new(10));
    finds(&rt, &mut line, 0, &[3, 0, 2], b"22")?;
    finds(&rt, &mut line, 8, &[0, 1, 2], b"21")
}

// A great score does not make up for a mark.
#[test]
fn places_are_not_summed(rt: HostRuntime) -> Result<(), Fail> {
    let mut line = Line::new(rt.alloc(), 2, 3)?;
    line.put(0, 1, Mark::new(0, Score::new(100)));
    line.put(0, 2, Mark::new(1, Score::new(-50)));
    line.put(1, 2, Mark::new(0, Score::new(7)));
    line.put(2, 1, Mark::new(0, Score::new(-3)));
    finds(&rt, &mut line, 0, &[2, 0], b"1,-53")
}

// Forty words in a chain, against every other arc: the arc from each word to the next, and from the root to the first,
// weighs 2, and any other 1.
#[test]
fn forty_words(rt: HostRuntime) -> Result<(), Fail> {
    let mut memory = Memory::new(rt.alloc())?;
    memory.sets.fill(0x1ff_ffff_ffff);
    for (place, weight) in memory.weights.iter_mut().enumerate() {
        *weight = Score::new(if place % 42 == 0 { 2 } else { 1 });
    }
    let mut heads = [0; 40];
    let told = memory.search(40, &[], &mut heads)?;
    assert!(rt; shows(&told.ok_or("no tree")?, b"80"));
    assert!(rt; heads.iter().copied().eq(0..40));
    Ok(())
}

// What a search in the memory of two words tells.
fn told(words: usize, sets: &[u64], heads: &mut [u8]) -> Result<Option<Score>, Refusal> {
    let nothing = Score::new(0);
    let working = &mut Working {
        nodes: &mut [Node::new(nothing); 3],
        merges: &mut [Node::new(nothing); 1],
        potentials: &mut [<Root<_> as Kind>::nothing(); 3],
    };
    best_tree(words, sets, &[nothing; 6], &[], working, heads)
}

// Each refusal, and nothing written.
#[test]
fn refused(rt: HostRuntime) {
    let mut heads = [5; 1];
    let none = told(0, &[0; 2], &mut heads);
    assert_eq!(rt; none, Err(Refusal::WordCount));
    let many = told(41, &[0; 2], &mut heads);
    assert_eq!(rt; many, Err(Refusal::WordCount));
    let short = told(2, &[0; 1], &mut heads);
    assert_eq!(rt; short, Err(Refusal::ShortMemory));
    let narrow = told(2, &[0; 2], &mut heads);
    assert_eq!(rt; narrow, Err(Refusal::ShortSpace));
    assert_eq!(rt; heads, [5; 1]);
}
