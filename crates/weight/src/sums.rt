// Sums of single places. Beyond 64 bits they stop at the ends, so that nothing wraps.
ghost use Rattle.std.specs.Prelude.{[], ◌∷◌};
ghost use Rattle.weight.specs.Stops.{PlaceSum, PlaceDifference};
ghost use Rattle.weight.specs.Worth.{SumIs, DifferenceIs};

/// The sum of two places, or the end of 64 bits that it lies beyond.
pub fn place_sum(a: i64, b: i64) -> i64
    ensures exact { SumIs (a ∷ []) (b ∷ []) (result ∷ []) }
    ensures stops { PlaceSum a b result }
{
    a.saturating_add(b)
}

/// The difference of two places, or the end of 64 bits that it lies beyond.
pub fn place_difference(a: i64, b: i64) -> i64
    ensures exact { DifferenceIs (a ∷ []) (b ∷ []) (result ∷ []) }
    ensures stops { PlaceDifference a b result }
{
    a.saturating_sub(b)
}
