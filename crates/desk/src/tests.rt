use super::*;
use file::FileFault;
use ranking::Taken;
use refusal::Refusal;
use run::{Answer, Call, Turn};
use std::test::Fail;
use weight::Score;

// Every part is there, and the calls that need all of them succeed.
#[test]
fn memory_for_forty_words(rt: HostRuntime) -> Result<(), Fail> {
    let mut memory = Memory::new(rt.alloc())?;
    let sheet = memory.open(40)?;
    memory.put(&sheet, 0, 1, Score::new(5))?;
    memory.strike(&sheet, 0, 1)?;
    assert_eq!(rt; memory.search(40, &[], &mut [0; 40])?, None);
    assert_eq!(rt; memory.search_barring(40, &[], 1, &mut [0; 40])?, None);
    let mut ranking = ranking::begin(sheet);
    assert!(rt; memory.take(&mut ranking, &mut [0; 40]).is_err());
    assert_eq!(rt; memory.read(&[1, 0, 2, 1, 40])?.words(), 40);
    memory.run(40, &[], &mut [])?;
    Ok(())
}

// A file of one word with one arc, of score 5: its one tree is taken, and three calls do not fit two turns.
#[test]
fn run_on_a_file(rt: HostRuntime) -> Result<(), Fail> {
    let mut memory = Memory::new(rt.alloc())?;
    let file = [1, 0, 8, 1, 1, 0, 1, 0, 0, 0, 5];
    let calls = [Call::Begin, Call::Take(40), Call::Take(40)];
    let mut turns = [Turn {
        call: Call::End,
        answer: Answer::Misplaced,
    }; 2];
    memory.run_file(&file, &calls[..2], &mut turns)?;
    let five: Score = Score::new(5);
    assert_eq!(rt;
        turns[1].answer,
        Answer::Handed(
            [0; 40],
            Taken {
                weight: five,
                count: 1
            }
        )
    );
    let refused = memory.run_file(&file, &calls, &mut turns);
    assert_eq!(rt; refused, Err(FileFault::Sheet(Refusal::ShortSpace)));
    Ok(())
}

// The numbers of the generator with these constants, reckoned elsewhere.
#[test]
fn known_draws(rt: HostRuntime) {
    let mut random = Random { seed: 1 };
    assert_eq!(rt; random.draw(), 908_834_774);
    assert_eq!(rt; random.below(5), 3);
    assert_eq!(rt; random.score(), Score::new(-659_500));
    assert_eq!(rt; random.below(0), 0);
}
