// Random sheets of every kind of weight, and the rankings of them.
use crate::trees::Trees;
use bench::Plain;
use desk::{Memory, Random};
use pair::Pair;
use ranking::Ranking;
use refusal::Refusal;
use sheet::Sheet;
use std::alloc::{AllocError, Global};
use std::process::Abort;
use std::test::Fail;
use weight::{Cost, Mark, Opens, Score};

/// A kind whose weights can be drawn at random, from so few that many are equal.
pub trait Drawn: Opens {
    /// The next weight.
    fn drawn(random: &mut Random) -> Self;
}

impl Drawn for Score {
    fn drawn(random: &mut Random) -> Score {
        Score::new(i64::from(random.below(5)) - 2)
    }
}

impl Drawn for Cost {
    fn drawn(random: &mut Random) -> Cost {
        Cost::new(u32::from(random.below(4)))
    }
}

impl Drawn for Mark<Score> {
    fn drawn(random: &mut Random) -> Mark<Score> {
        let mark = random.below(2);
        Mark::new(mark, Score::new(i64::from(random.below(5)) * 100 - 200))
    }
}

impl Drawn for Pair {
    fn drawn(random: &mut Random) -> Pair {
        let first = i64::from(random.below(3)) - 1;
        Pair::new(first, i64::from(random.below(3)))
    }
}

/// The memory of a sheet, a plain record of what stands on the sheet, and the random numbers that its arcs are drawn with.
#[derive(Drop)]
pub struct Trial<K> {
    memory: Memory<K>,
    plain: Plain<K>,
    pub random: Random,
}

impl<K: Drawn + Copy> Trial<K> {
    /// Memory in which no arc stands, and an empty record.
    pub fn new(heap: Global, seed: u64) -> Result<Trial<K>, AllocError> {
        Ok(Trial {
            memory: Memory::new(heap)?,
            plain: Plain::new(heap)?,
            random: Random { seed },
        })
    }

    // Opens a sheet.
    fn open(&mut self, words: usize) -> Result<Sheet<K>, Refusal> {
        self.plain.reset(words);
        self.memory.open(words)
    }

    // Puts an arc; the answer is as it should be.
    fn put(&mut self, rt: &impl Abort, sheet: &Sheet<K>, head: usize, dependent: usize, weight: K) {
        let told = self.memory.put(sheet, head, dependent, weight);
        assert_eq!(rt; told, self.plain.put(head, dependent, weight));
    }

    // Strikes an arc; the answer is as it should be.
    fn strike(
        &mut self,
        rt: &(impl Abort + AllocGlobal),
        sheet: &Sheet<K>,
        head: usize,
        dependent: usize,
    ) {
        let told = self.memory.strike(sheet, head, dependent);
        assert_eq!(rt; told, self.plain.strike(head, dependent));
    }

    /// Opens a sheet with random arcs, so many of six.
    pub fn draw(
        &mut self,
        rt: &(impl Abort + AllocGlobal),
        words: usize,
        dense: u8,
    ) -> Result<Sheet<K>, Fail> {
        let sheet = self.open(words)?;
        for dependent in 1..6 {
            for head in 0..6 {
                if self.random.below(6) < dense {
                    let weight = K::drawn(&mut self.random);
                    self.put(rt, &sheet, head, dependent, weight);
                }
            }
        }
        Ok(sheet)
    }

    /// Opens a sheet on which every arc of the line has this weight; just the loops are refused.
    pub fn open_level(
        &mut self,
        rt: &impl Abort,
        words: usize,
        weight: K,
    ) -> Result<Sheet<K>, Refusal> {
        let sheet = self.open(words)?;
        for dependent in 1..=words {
            for head in 0..=words {
                self.put(rt, &sheet, head, dependent, weight);
            }
        }
        Ok(sheet)
    }

    /// All trees of the sheet that was opened last, by the record of what stands there.
    pub fn trees(&self, heap: Global) -> Result<Trees<K>, AllocError> {
        Trees::new(heap, &self.plain)
    }

    /// Puts or strikes a few arcs, some of them no arcs of the line.
    pub fn edit(&mut self, rt: &(impl Abort + AllocGlobal), sheet: &Sheet<K>) {
        for _ in 0..6 {
            let head = usize::from(self.random.below(7));
            let dependent = usize::from(self.random.below(7));
            if self.random.below(2) == 0 {
                let weight = K::drawn(&mut self.random);
                self.put(rt, sheet, head, dependent, weight);
            } else {
                self.strike(rt, sheet, head, dependent);
            }
        }
    }

    /// Makes so many takes of a new ranking, each after one into too little space, and ends it; each answer is as it should be.
    pub fn rank(
        &mut self,
        rt: &(impl Abort + AllocGlobal),
        sheet: Sheet<K>,
        takes: usize,
    ) -> Result<Sheet<K>, Fail> {
        let mut trees = self.trees(rt.alloc())?;
        let mut ranking = ranking::begin(sheet);
        for _ in 0..takes {
            let before = self.memory.sets.clone()?;
            self.take_into_less(rt, &mut ranking);
            self.take(rt, &mut ranking, &mut trees);
            assert_eq!(rt; self.memory.sets, before);
        }
        Ok(ranking::end(ranking))
    }

    // A take into a byte too little is refused and writes nothing.
    fn take_into_less(&mut self, rt: &(impl Abort + AllocGlobal), ranking: &mut Ranking<K>) {
        let words = self.plain.words;
        assert!(rt; 1 <= words && words <= 8);
        let mut space = [99; 8];
        let less = &mut space[..words - 1];
        let told = self.memory.take(ranking, less);
        assert_eq!(rt; told.err(), Some(Refusal::ShortSpace));
        assert!(rt; less.iter().all(|byte| *byte == 99));
    }

    // A take tells what it should, and writes no more than it should.
    fn take(
        &mut self,
        rt: &(impl Abort + AllocGlobal),
        ranking: &mut Ranking<K>,
        trees: &mut Trees<K>,
    ) {
        let words = self.plain.words;
        assert!(rt; words <= 8);
        let mut space = [99; 8];
        let told = self.memory.take(ranking, &mut space);
        let (heads, rest) = space.split_at(words);
        assert_eq!(rt; told.err(), trees.check().err());
        match told {
            Ok(taken) => assert!(rt; trees.hands_out(heads, &taken)),
            Err(_) => assert!(rt; heads.iter().all(|byte| *byte == 99)),
        }
        assert!(rt; rest.iter().all(|byte| *byte == 99));
    }
}
