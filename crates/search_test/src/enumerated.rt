// Random lines of one to five words: the search answers as an enumeration of all lists of heads does.
use crate::lines::Line;
use desk::Random;
use std::fmt::Debug;
use std::process::Abort;
use std::test::Fail;
use tree::check_heads;
use weight::{Cost, Kind, Mark, Score};

// The next random number below `most`, drawn from 256.
fn below(random: &mut Random, most: u8) -> u8 {
    // a remainder by 256 fits a byte
    let drawn = (random.draw() % 256) as u8;
    drawn.checked_rem(most).unwrap_or(0)
}

// The search tells the enumeration's answer, by a tree that has it. Returns 1 where there is one: each test tells how many it met.
fn agrees<K: Kind + Copy + PartialEq + Debug>(
    rt: &impl Abort,
    line: &mut Line<K>,
    held: &[u8],
    barred: u64,
) -> Result<usize, Fail> {
    let wanted = line.greatest(held, barred);
    let mut heads = [77; 6];
    let before = line.sets.clone()?;
    let told = line.search(held, barred, &mut heads)?;
    assert_eq!(rt; told, wanted);
    assert_eq!(rt; line.sets, before);
    assert!(rt; line.words <= 5);
    let (list, rest) = heads.split_at(usize::from(line.words));
    assert!(rt; rest.iter().all(|head| *head == 77));
    if wanted.is_some() {
        assert!(rt; check_heads(list).is_ok());
        assert_eq!(rt; line.weigh(list), wanted);
    } else {
        assert!(rt; list.iter().all(|head| *head == 77));
    }
    Ok(usize::from(wanted.is_some()))
}

// Draws the arcs of a line: how many of six stand, with weights between -2 and 2, so that many are equal.
fn draw(line: &mut Line<Score>, random: &mut Random, dense: u8) {
    line.draw(|| {
        let stands = below(random, 6) < dense;
        stands.then(|| Score::new(i64::from(below(random, 5)) - 2))
    });
}

#[test]
fn scores_as_enumerated(rt: HostRuntime) -> Result<(), Fail> {
    let mut random = Random { seed: 1 };
    let mut trees: usize = 0;
    for words in 1..6 {
        for round in 0..36 {
            let mut line = Line::new(rt.alloc(), words, 5)?;
            draw(&mut line, &mut random, 1 + round % 6);
            trees = trees.wrapping_add(agrees(&rt, &mut line, &[], 0)?);
        }
    }
    assert_eq!(rt; trees, 110);
    Ok(())
}

#[test]
fn costs_and_no_arcs_as_enumerated(rt: HostRuntime) -> Result<(), Fail> {
    let mut random = Random { seed: 2 };
    let mut trees: usize = 0;
    for words in 1..5 {
        let mut none: Line<Cost> = Line::new(rt.alloc(), words, 5)?;
        trees = trees.wrapping_add(agrees(&rt, &mut none, &[], 0)?);
        for _ in 0..20 {
            let mut line = Line::new(rt.alloc(), words, 5)?;
            line.draw(|| {
                let stands = below(&mut random, 4) > 0;
                stands.then(|| Cost::new(u32::from(below(&mut random, 3))))
            });
            trees = trees.wrapping_add(agrees(&rt, &mut line, &[], 0)?);
        }
    }
    assert_eq!(rt; trees, 70);
    Ok(())
}

#[test]
fn marks_as_enumerated(rt: HostRuntime) -> Result<(), Fail> {
    let mut random = Random { seed: 3 };
    let mut trees: usize = 0;
    for words in 1..5 {
        for _ in 0..20 {
            let mut line = Line::new(rt.alloc(), words, 5)?;
            line.draw(|| {
                if below(&mut random, 5) == 0 {
                    return None;
                }
                let mark = below(&mut random, 3);
                let score = i64::from(below(&mut random, 200)) * 10 - 1000;
                Some(Mark::new(mark, Score::new(score)))
            });
            trees = trees.wrapping_add(agrees(&rt, &mut line, &[], 0)?);
        }
    }
    assert_eq!(rt; trees, 75);
    Ok(())
}

#[test]
fn held_and_barred_as_enumerated(rt: HostRuntime) -> Result<(), Fail> {
    let mut random = Random { seed: 4 };
    let mut trees: usize = 0;
    for _ in 0..120 {
        let mut line = Line::new(rt.alloc(), 4, 5)?;
        draw(&mut line, &mut random, 5);
        let held = [
            below(&mut random, 6),
            below(&mut random, 6),
            below(&mut random, 6),
        ];
        let many = usize::from(below(&mut random, 4));
        let barred = u64::from(below(&mut random, 32));
        trees = trees.wrapping_add(agrees(
            &rt,
            &mut line,
            held.get(..many).unwrap_or(&[]),
            barred,
        )?);
    }
    assert_eq!(rt; trees, 44);
    Ok(())
}
