// Random numbers, the same at every run.
ghost use Rattle.desk.specs.Draws.{drawn_from, score_from, seed_after};
ghost use Rattle.std.specs.Prelude.{◌≡◌, ◌%◌, ◌<◌, [], ◌∷◌};
ghost use Rattle.weight.specs.Numbers.{score_worth};

use weight::Score;

/// A source of random numbers, which gives the same ones from the same seed.
#[derive(Drop)]
pub struct Random {
    pub seed: u64,
}

impl Random {
    /// The next number, of 31 bits.
    pub fn draw(&mut self) -> u32
        ensures seed { self.new.seed ≡ seed_after self.old.seed }
        ensures value { result ≡ drawn_from self.old.seed }
    {
        self.seed = self
            .seed
            .wrapping_mul(6364136223846793005)
            .wrapping_add(1442695040888963407);
        // what is left fits: `try_from` would owe an answer for numbers that do not come
        (self.seed >> 33) as u32
    }

    /// The next number below `most`; 0 if there is none.
    pub fn below(&mut self, most: u8) -> u8
        ensures seed { self.new.seed ≡ seed_after self.old.seed }
        ensures value { 0 < most → result ≡ drawn_from self.old.seed % most }
        ensures none { most ≡ 0 → result ≡ 0 }
    {
        // a remainder by a byte fits a byte
        let drawn = self.draw();
        drawn.checked_rem(u32::from(most)).unwrap_or(0) as u8
    }

    /// The next score.
    pub fn score(&mut self) -> Score
        ensures seed { self.new.seed ≡ seed_after self.old.seed }
        ensures value { score_worth result ≡ score_from self.old.seed ∷ [] }
    {
        let drawn = self.draw();
        Score::new(i64::from(drawn % 2_000_001) - 1_000_000)
    }
}
