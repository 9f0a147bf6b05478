// Ranks lines of 40 words on which every arc stands, with random scores, so that the cost of takes can be counted.
// The two numbers on standard input say how many lines are ranked, and how many trees are taken of each.
#![tactic(auto)]

use desk::{Memory, Random};
use ranking::begin;
use reading::read_spaced;
use refusal::Refusal;
use sheet::Sheet;
use std::io;
use std::io::{BufRead, BufReader};
use weight::Score;

// Opens a sheet with a drawn score on every arc. Where head and dependent are one word the put is refused.
fn draw(random: &mut Random, memory: &mut Memory<Score>) -> Result<Sheet<Score>, Refusal> {
    let sheet = memory.open(40)?;
    for dependent in 1..41 {
        for head in 0..41 {
            let _ = memory.put(&sheet, head, dependent, random.score());
        }
    }
    Ok(sheet)
}

// Takes trees of one line; returns how many it got, and leaves the heads of the last.
fn rank(takes: u8, sheet: Sheet<Score>, memory: &mut Memory<Score>, heads: &mut [u8; 40]) -> usize {
    let mut ranking = begin(sheet);
    let taken = (0..takes).filter(|_| memory.take(&mut ranking, heads).is_ok());
    taken.count()
}

// Draws and ranks so many lines; returns how many trees it got, and a number that the last tree of each line changes.
fn rank_lines(lines: u8, takes: u8, memory: &mut Memory<Score>) -> Result<(usize, u64), Refusal> {
    let mut random = Random { seed: 12345 };
    let mut got: usize = 0;
    let mut mark: u64 = 0;
    for _ in 0..lines {
        let sheet = draw(&mut random, memory)?;
        let mut heads = [0; 40];
        got = got.saturating_add(rank(takes, sheet, memory, &mut heads));
        for head in heads {
            mark = mark.wrapping_mul(41).wrapping_add(u64::from(head));
        }
    }
    Ok((got, mark))
}

// The first two numbers of the input.
// It only reads standard input, of which no contract can speak, so it stands in the program.
fn ask(rt: &HostRuntime) -> io::Result<(u8, u8)> {
    for line in BufReader::new(rt.alloc(), rt.stdin())?.split(rt.alloc(), b'\n') {
        let line = line?;
        if let Some(numbers) = read_spaced(rt.alloc(), line.as_slice())? {
            if let [lines, takes, ..] = numbers.as_slice() {
                return Ok((*lines, *takes));
            }
        }
    }
    Ok((0, 0))
}

fn main(rt: HostRuntime) -> io::Result<()> {
    let (lines, takes) = ask(&rt)?;
    let mut memory = Memory::new(rt.alloc())?;
    match rank_lines(lines, takes, &mut memory) {
        Ok((got, mark)) => println!(rt;
            "ranked {lines} lines of 40 words, {takes} takes each: {got} trees, with mark {mark}"
        ),
        Err(why) => println!(rt; "{why}"),
    }
}
