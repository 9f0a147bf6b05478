// Runs of calls, beside the same calls made one by one.
use desk::{Memory, Random};
use ranking::Ranking;
use refusal::Refusal;
use run::{Answer, Call, Turn};
use sheet::Sheet;
use std::alloc::AllocError;
use std::process::Abort;
use std::test::Fail;
use weight::Score;

// Calls that were made one by one, each with what it answered.
#[derive(Drop)]
struct Log {
    turns: Vec<Turn<Score>>,
}

impl Log {
    // Notes a call and its answer.
    fn note(&mut self, call: Call<Score>, answer: Answer<Score>) -> Result<(), AllocError> {
        self.turns.push(Turn { call, answer })?;
        Ok(())
    }

    // Makes random calls on an open sheet.
    fn edit_some(
        &mut self,
        memory: &mut Memory<Score>,
        sheet: &Sheet<Score>,
        random: &mut Random,
    ) -> Result<(), AllocError> {
        for _ in 0..10 {
            let head = usize::from(random.below(5));
            let dependent = usize::from(random.below(5));
            let weight = Score::new(i64::from(random.below(5)));
            match random.below(8) {
                0 => self.note(Call::Take(3), Answer::Misplaced)?,
                1 => self.note(Call::End, Answer::Misplaced)?,
                2 => {
                    let told = memory.strike(sheet, head, dependent);
                    self.note(Call::Strike(head, dependent), Answer::from(told))?;
                }
                _ => {
                    let told = memory.put(sheet, head, dependent, weight);
                    self.note(Call::Put(head, dependent, weight), Answer::from(told))?;
                }
            }
        }
        Ok(())
    }

    // Makes random calls on a ranking.
    fn take_some(
        &mut self,
        memory: &mut Memory<Score>,
        ranking: &mut Ranking<Score>,
        random: &mut Random,
    ) -> Result<(), AllocError> {
        for _ in 0..8 {
            let room = usize::from(random.below(45));
            match random.below(8) {
                0 => self.note(Call::Begin, Answer::Misplaced)?,
                1 => self.note(Call::Strike(0, 1), Answer::Misplaced)?,
                2 => self.note(Call::Put(0, 1, Score::new(9)), Answer::Misplaced)?,
                _ => {
                    let told = take_into(memory, ranking, room);
                    self.note(Call::Take(room), told)?;
                }
            }
        }
        Ok(())
    }
}

// The answer of a take into so many bytes.
fn take_into(
    memory: &mut Memory<Score>,
    ranking: &mut Ranking<Score>,
    room: usize,
) -> Answer<Score> {
    let mut heads = [0; 40];
    match memory.take(ranking, &mut heads[..room.min(40)]) {
        Ok(taken) => Answer::Handed(heads, taken),
        Err(why) => Answer::Refused(why),
    }
}

// A run of random calls on a sheet of three words, edits and rankings in turn, answers as the calls made one by one.
fn runs_so(rt: &(impl Abort + AllocGlobal), random: &mut Random) -> Result<(), Fail> {
    let mut memory = Memory::new(rt.alloc())?;
    let mut sheet = memory.open(3)?;
    let mut log = Log {
        turns: Vec::new(rt.alloc()),
    };
    for _ in 0..4 {
        log.edit_some(&mut memory, &sheet, random)?;
        log.note(Call::Begin, Answer::Done)?;
        let mut ranking = ranking::begin(sheet);
        log.take_some(&mut memory, &mut ranking, random)?;
        log.note(Call::End, Answer::Done)?;
        sheet = ranking::end(ranking);
    }
    let calls = log.turns.iter().map(|turn| turn.call);
    let calls: Vec<Call<Score>> = calls.collect(rt.alloc())?;
    assert_eq!(rt; calls.len(), 80);
    let blank = Turn {
        call: Call::End,
        answer: Answer::Done,
    };
    let mut turns = vec![in rt.alloc(); blank; 80]?;
    memory.run(3, calls.as_slice(), turns.as_mut_slice())?;
    assert_eq!(rt; turns, log.turns);
    Ok(())
}

#[test]
fn runs_as_one_by_one(rt: HostRuntime) -> Result<(), Fail> {
    let mut random = Random { seed: 1 };
    for _ in 0..50 {
        runs_so(&rt, &mut random)?;
    }
    let mut memory = Memory::<Score>::new(rt.alloc())?;
    let many = memory.run(41, &[], &mut []);
    assert_eq!(rt; many, Err(Refusal::WordCount));
    let short = memory.run(1, &[Call::Begin], &mut []);
    assert_eq!(rt; short, Err(Refusal::ShortSpace));
    Ok(())
}
