// Searches lines of 40 words on which every arc stands, with random scores, so that the search's cost can be counted.
// It draws 200 lines, and searches as many of them as the number on standard input says.
#![tactic(auto)]

use desk::{Memory, Random};
use reading::read_spaced;
use std::io;
use std::io::{BufRead, BufReader};
use weight::Score;

// Draws a score for each arc.
fn draw(random: &mut Random, weights: &mut [Score]) {
    for weight in weights.iter_mut() {
        *weight = random.score();
    }
}

// Whether a search of the whole line finds a tree, whose heads it then writes.
fn finds(memory: &mut Memory<Score>, heads: &mut [u8]) -> bool {
    matches!(memory.search(40, &[], heads), Ok(Some(_)))
}

// Draws the lines and searches the first of them; returns how many trees were found, and leaves the heads of the last.
fn run(searches: u8, memory: &mut Memory<Score>, heads: &mut [u8]) -> usize {
    let mut random = Random { seed: 12345 };
    let found = (0..200).filter(|line| {
        draw(&mut random, memory.weights.as_mut_slice());
        *line < searches && finds(memory, heads)
    });
    found.count()
}

// The number on the first line of the input.
// It only reads standard input, of which no contract can speak, so it stands in the program.
fn ask(rt: &HostRuntime) -> io::Result<u8> {
    for line in BufReader::new(rt.alloc(), rt.stdin())?.split(rt.alloc(), b'\n') {
        let line = line?;
        if let Some(numbers) = read_spaced(rt.alloc(), line.as_slice())? {
            if let [first, ..] = numbers.as_slice() {
                return Ok(*first);
            }
        }
    }
    Ok(0)
}

fn main(rt: HostRuntime) -> io::Result<()> {
    let searches = ask(&rt)?;
    let mut memory = Memory::new(rt.alloc())?;
    memory.sets.fill(0x1ff_ffff_ffff);
    let mut heads = [0; 40];
    let found = run(searches, &mut memory, &mut heads);
    println!(rt;
        "searched {searches} lines of 40 words, found {found} trees, the last with the heads {heads:?}"
    )
}
