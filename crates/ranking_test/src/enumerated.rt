// Sheets of one to five words, drawn at random or with every arc at 0: their rankings are those that an enumeration of all lists of heads
// allows.
use crate::trial::{Drawn, Trial};
use desk::Random;
use pair::Pair;
use std::process::Abort;
use std::test::Fail;
use weight::{Cost, Mark, Score};

// The rankings of a kind's random sheets are as they should be.
fn all_rank<K: Drawn + Copy>(
    rt: &(impl Abort + AllocGlobal),
    trial: &mut Trial<K>,
) -> Result<(), Fail> {
    for words in 1..6 {
        for round in 0..36 {
            let sheet = trial.draw(rt, words, 1 + round % 6)?;
            trial.rank(rt, sheet, 53)?;
        }
    }
    Ok(())
}

// Rankings of one sheet, with edits between them, are as they should be.
fn ranks_again<K: Drawn + Copy>(
    rt: &(impl Abort + AllocGlobal),
    trial: &mut Trial<K>,
    words: usize,
) -> Result<(), Fail> {
    let mut sheet = trial.draw(rt, words, 5)?;
    for _ in 0..6 {
        let few = usize::from(trial.random.below(8));
        sheet = trial.rank(rt, sheet, few)?;
        sheet = trial.rank(rt, sheet, 53)?;
        trial.edit(rt, &sheet);
    }
    trial.rank(rt, sheet, 53)?;
    Ok(())
}

// A kind's rankings are as they should be, without edits and with them.
fn agree<K: Drawn + Copy>(rt: &(impl Abort + AllocGlobal)) -> Result<(), Fail> {
    let mut trial = Trial::<K>::new(rt.alloc(), 1)?;
    all_rank(rt, &mut trial)?;
    trial.random = Random { seed: 2 };
    for words in 1..6 {
        for _ in 0..8 {
            ranks_again(rt, &mut trial, words)?;
        }
    }
    Ok(())
}

#[test]
fn scores_as_enumerated(rt: HostRuntime) -> Result<(), Fail> {
    agree::<Score>(&rt)
}

#[test]
fn costs_as_enumerated(rt: HostRuntime) -> Result<(), Fail> {
    agree::<Cost>(&rt)
}

#[test]
fn marks_as_enumerated(rt: HostRuntime) -> Result<(), Fail> {
    agree::<Mark<Score>>(&rt)
}

#[test]
fn pairs_as_enumerated(rt: HostRuntime) -> Result<(), Fail> {
    agree::<Pair>(&rt)
}

// Every arc at 0: of n words n^(n-1) trees stand, and as many are handed out as are no more than fifty.
#[test]
fn every_arc_at_nothing(rt: HostRuntime) -> Result<(), Fail> {
    let mut trial = Trial::<Score>::new(rt.alloc(), 1)?;
    for (words, trees) in [(1, 1), (2, 2), (3, 9), (4, 64), (5, 625)] {
        let sheet = trial.open_level(&rt, words, Score::new(0))?;
        assert_eq!(rt; trial.trees(rt.alloc())?.count(), trees);
        trial.rank(&rt, sheet, 53)?;
    }
    Ok(())
}
