// Weights of arcs. A kind of weight gives each value a worth, a list of whole numbers; everything above speaks of worths alone.
#![tactic(auto)]

ghost use Rattle.std.specs.Prelude.{◌≡◌, ℕ, ◌≤◌, List, length};
ghost use Rattle.weight.specs.Worth.{Worth, zeros, SumIs, DifferenceIs, at_most, order, WorthLaws, OrderLaws, BoundLaws};
ghost use Rattle.weight.specs.Range.{Range, Ranged, entry_in, EntryWithin};
ghost use Rattle.weight.specs.Stops.{Unsaid};
ghost use Rattle.weight.specs.Text.{Shown, TextLaws};

use refusal::Refusal;
use std::cmp::Ordering;

mod layer;
mod showing;
mod single;
mod span;
mod sums;

pub use layer::{Layer, Mark, Root};
pub use showing::{show_front, show_place};
pub use single::{Cost, Score, Single};
pub use span::{CostSpan, MarkSpan, RootSpan, ScoreSpan, Span};
pub use sums::{place_difference, place_sum};

/// A kind of weight: its five rules are nothing, sum with difference, comparison, entry and showing. (No `Ord` and no `Display`:
/// the order is that of worths, and a text is written into a lent space.)
pub trait Kind {
    // how many places a weight has
    ghost places: { ℕ };

    ghost some: { 1 ≤ places };

    // where the places of an entry lie
    ghost ranges: { List Range };

    ghost ranged: { (length ranges ≡ places) × Ranged ranges };

    ghost worth: { Self → Worth };

    ghost sized: { (x : Self) → length (worth x) ≡ places };

    // where the places of a sum and of a difference stop, however far from 0; a kind need not say it
    ghost sum_stops: { Self → Self → Self → Type 0 } = { Unsaid };

    ghost difference_stops: { Self → Self → Self → Type 0 } = { Unsaid };

    /// The weight with 0 at every place.
    fn nothing() -> Self
        ensures { worth result ≡ zeros places };

    /// Exact while every place of both lies within ±2^40.
    fn sum(&self, other: &Self) -> Self
        ensures exact { SumIs (worth self.now) (worth other.now) (worth result) }
        ensures stops { sum_stops self.now other.now result };

    /// Exact while every place of both lies within ±2^40.
    fn difference(&self, other: &Self) -> Self
        ensures exact { DifferenceIs (worth self.now) (worth other.now) (worth result) }
        ensures stops { difference_stops self.now other.now result };

    /// Less, equal or greater, by the first place where the two differ.
    fn compare(&self, other: &Self) -> Ordering
        ensures { result ≡ order (worth self.now) (worth other.now) };

    /// Whether a sheet takes the weight: each place lies in its range.
    fn entry(&self) -> bool
        ensures { result ≡ entry_in ranges (worth self.now) };

    /// Writes the places in decimal, joined by commas, to the front of the space, and answers the length.
    fn show(&self, space: &mut [u8]) -> Result<usize, Refusal>
        ensures { Shown (worth self.now) space.old space.new result };

    /// Whether this one is no greater: the comparison's answer, for every kind.
    fn at_most(&self, other: &Self) -> bool
        ensures { result ≡ at_most (worth self.now) (worth other.now) }
    {
        self.compare(other).is_le()
    }
}

/// A kind that a sheet can be opened with.
pub trait Opens: Kind {}

/// What holds of all worths and their texts.
pub fn laws()
    ensures group { WorthLaws }
    ensures order { OrderLaws }
    ensures bounds { BoundLaws }
    ensures entries { EntryWithin }
    ensures texts { TextLaws }
{}
