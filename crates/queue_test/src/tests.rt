// Long random runs of pushes, pops and drops, each answer compared with a plain list that is kept sorted.
use super::*;
use std::alloc::{AllocError, Global};
use std::test::Fail;

const ROOM: usize = 64;

fn candidate(head: u8, weight: u32) -> Candidate {
    Candidate {
        heads: [head; 4],
        weight,
    }
}

// A run: of sixteen steps about so many push, so many push and drop the least, and the others pop.
#[derive(Drop)]
struct Run {
    seed: u32,
    room: usize,
    steps: u32,
    pushes: u32,
    drops: u32,
    // weights are below this, or of any size where it is 0; where it is small, many are equal
    spread: u32,
}

fn row(seed: u32, room: usize, steps: u32, pushes: u32, drops: u32, spread: u32) -> Run {
    Run {
        seed,
        room,
        steps,
        pushes,
        drops,
        spread,
    }
}

// The waiting list, and beside it the candidates that wait in it, heaviest first.
#[derive(Drop)]
struct Both {
    slots: Vec<Candidate>,
    sorted: Vec<Candidate>,
}

impl Both {
    fn new(alloc: Global) -> Result<Both, AllocError> {
        Ok(Both {
            slots: vec![in alloc; candidate(0, 0); ROOM]?,
            sorted: Vec::new(alloc),
        })
    }

    // Puts x into the sorted list, behind those that are at least as heavy.
    fn add(&mut self, x: Candidate) -> Result<(), AllocError> {
        let place = self.sorted.partition_point(|y| x.weight <= y.weight);
        self.sorted.insert(place, x)?;
        Ok(())
    }

    // Takes x out of the sorted list, if it stands there and is as heavy as the one at `rank`.
    fn remove(&mut self, x: Candidate, rank: usize) -> bool {
        let at = self.sorted.iter().position(|y| *y == x);
        match (at, self.sorted.get(rank)) {
            (Some(at), Some(y)) if y.weight == x.weight => {
                self.sorted.remove(at);
                true
            }
            _ => false,
        }
    }

    fn push(&mut self, room: usize, x: Candidate) -> Result<bool, AllocError> {
        let Some(slots) = self.slots.as_mut_slice().get_mut(..room) else {
            return Ok(false);
        };
        match queue::push(slots, self.sorted.len(), x) {
            Ok(more) => {
                self.add(x)?;
                Ok(self.sorted.len() == more)
            }
            Err(refused) => Ok(refused == Refused::Full && self.sorted.len() == room),
        }
    }

    fn pop(&mut self) -> bool {
        match queue::pop(&mut self.slots, self.sorted.len()) {
            Ok(x) => self.remove(x, 0),
            Err(refused) => refused == Refused::Empty && self.sorted.is_empty(),
        }
    }

    fn push_drop_least(&mut self, x: Candidate) -> Result<bool, AllocError> {
        let len = self.sorted.len();
        match queue::push_drop_least(&mut self.slots, len, x) {
            Ok(y) => {
                self.add(x)?;
                Ok(self.remove(y, len))
            }
            Err(_) => Ok(false),
        }
    }

    // One step of a run, as the random number tells.
    fn step(&mut self, run: &Run, random: u32, x: Candidate) -> Result<bool, AllocError> {
        let pick = random >> 28;
        if pick < run.pushes {
            self.push(run.room, x)
        } else if pick - run.pushes < run.drops {
            self.push_drop_least(x)
        } else {
            Ok(self.pop())
        }
    }
}

// The next random number. The runs keep this generator, so that they stay the runs that they were.
fn next(random: u32) -> u32 {
    random.wrapping_mul(1_664_525).wrapping_add(1_013_904_223)
}

// Whether every answer of the run is the sorted list's, and at the end the lists empty alike.
fn agrees(alloc: Global, run: &Run) -> Result<bool, AllocError> {
    let mut both = Both::new(alloc)?;
    let mut random = run.seed;
    for step in 0..run.steps {
        random = next(random);
        let x = Candidate {
            heads: step.to_le_bytes(),
            weight: (random >> 8).checked_rem(run.spread).unwrap_or(random),
        };
        if !both.step(run, random, x)? {
            return Ok(false);
        }
    }
    Ok((0..=ROOM).all(|_| both.pop()) && both.sorted.is_empty())
}

#[test]
fn runs_agree_with_a_sorted_list(rt: HostRuntime) -> Result<(), Fail> {
    let table = [
        // seed, room, steps, pushes, drops, spread
        row(1, 1, 2000, 7, 2, 0),
        row(2, 2, 2000, 7, 3, 5),
        row(3, 7, 9000, 7, 3, 100),
        row(4, 31, 20000, 8, 3, 3),
        row(5, 50, 20000, 8, 6, 0),
        row(6, 50, 20000, 10, 0, 1),
        row(7, 64, 40000, 7, 1, 0),
        row(8, 64, 40000, 9, 1, 1000),
        row(9, 0, 100, 5, 5, 0),
    ];
    for run in &table {
        assert!(rt; agrees(rt.alloc(), run)?);
    }
    Ok(())
}

#[test]
fn a_wrong_answer_is_told(rt: HostRuntime) -> Result<(), Fail> {
    let light = candidate(1, 1);
    let heavy = candidate(2, 2);
    let mut both = Both::new(rt.alloc())?;
    both.add(light)?;
    both.add(heavy)?;
    // not the heaviest, and none that waits
    assert!(rt; !both.remove(light, 0));
    assert!(rt; !both.remove(candidate(3, 2), 0));
    assert!(rt; both.remove(heavy, 0));
    Ok(())
}
