// Weights of one place, which lies in the span `S`.
ghost use Rattle.std.specs.Prelude.{◌≡◌, [], ◌∷◌, pos, neg_ℤ, refl};
ghost use Rattle.std.proofs.Common.{lit≤};
ghost use Rattle.weight.specs.Numbers.{single_worth, score_worth, cost_worth};
ghost use Rattle.weight.specs.Stops.{SingleSum, SingleDifference};

use crate::span::{CostSpan, ScoreSpan, Span};
use crate::{Kind, Opens, place_difference, place_sum, show_place};
use refusal::Refusal;
use std::cmp::Ordering;
use std::marker::PhantomData;

/// A weight of one place, in the span `S`.
#[derive(Clone, Copy, PartialEq, Eq, Debug)]
pub struct Single<S> {
    value: i64,
    of: PhantomData<S>,
}

/// A score: −1,000,000 to 1,000,000.
pub type Score = Single<ScoreSpan>;

/// A cost: the negative of a cost from 0 to 1,000,000, so that the least cost outweighs.
pub type Cost = Single<CostSpan>;

impl Score {
    /// The score of this value.
    pub fn new(value: i64) -> Score
        ensures { score_worth result ≡ value ∷ [] }
    {
        Single {
            value,
            of: PhantomData,
        }
    }
}

impl Cost {
    /// The weight of this cost: its negative.
    pub fn new(cost: u32) -> Cost
        ensures { cost_worth result ≡ neg_ℤ (pos cost) ∷ [] }
    {
        Single {
            value: -i64::from(cost),
            of: PhantomData,
        }
    }
}

impl<S: Span> Single<S> {
    /// The number at the one place.
    pub fn value(&self) -> i64
        ensures { single_worth self.now ≡ result ∷ [] }
    {
        self.value
    }
}

impl<S: Span> Kind for Single<S> {
    ghost places = { 1 };

    ghost some = { lit≤ tt };

    ghost ranges = { record { least = S.LEAST; greatest = S.GREATEST } ∷ [] };

    ghost ranged = { (refl, S.ranged) };

    ghost worth = { single_worth };

    ghost sized = { λ x. refl };

    ghost sum_stops = { SingleSum };

    ghost difference_stops = { SingleDifference };

    fn nothing() -> Single<S> {
        Single {
            value: 0,
            of: PhantomData,
        }
    }

    fn sum(&self, other: &Single<S>) -> Single<S> {
        Single {
            value: place_sum(self.value, other.value),
            of: PhantomData,
        }
    }

    fn difference(&self, other: &Single<S>) -> Single<S> {
        Single {
            value: place_difference(self.value, other.value),
            of: PhantomData,
        }
    }

    fn compare(&self, other: &Single<S>) -> Ordering {
        i64::cmp(&self.value, &other.value)
    }

    fn entry(&self) -> bool {
        (S::LEAST..=S::GREATEST).contains(&self.value)
    }

    fn show(&self, space: &mut [u8]) -> Result<usize, Refusal> {
        show_place(self.value, space)
    }
}

impl Opens for Score {}

impl Opens for Cost {}
