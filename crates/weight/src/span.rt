// Where one place of an entry lies: from the least to the greatest, both included. Each span is a type, and no two numbers in the
// weight's type: those would owe facts about sizes wherever a weight is copied.
ghost use Rattle.std.specs.Prelude.{[], ◌∷◌, ℤ, pos, neg_ℤ};
ghost use Rattle.std.specs.Int.Signed.{le_z_yes};
ghost use Rattle.weight.specs.Range.{Ranged, limit};

/// Where a place of an entry lies.
pub trait Span {
    /// The least number of an entry.
    const LEAST: i64;

    /// The greatest number of an entry.
    const GREATEST: i64;

    ghost LEAST: { ℤ };

    ghost GREATEST: { ℤ };

    ghost ranged: { Ranged (record { least = LEAST; greatest = GREATEST } ∷ []) };
}

/// A score's place: −1,000,000 to 1,000,000.
#[derive(Clone, Copy, PartialEq, Eq, Debug)]
pub struct ScoreSpan;

impl Span for ScoreSpan {
    const LEAST: i64 = -1_000_000;

    const GREATEST: i64 = 1_000_000;

    ghost LEAST = { neg_ℤ (pos limit) };

    ghost GREATEST = { pos limit };

    ghost ranged = { (le_z_yes tt, le_z_yes tt, le_z_yes tt, le_z_yes tt, tt) };
}

/// A cost's place, the negative of the cost: −1,000,000 to 0.
#[derive(Clone, Copy, PartialEq, Eq, Debug)]
pub struct CostSpan;

impl Span for CostSpan {
    const LEAST: i64 = -1_000_000;

    const GREATEST: i64 = 0;

    ghost LEAST = { neg_ℤ (pos limit) };

    ghost GREATEST = { pos 0 };

    ghost ranged = { (le_z_yes tt, le_z_yes tt, le_z_yes tt, le_z_yes tt, tt) };
}

/// The teacher's mark in front: 0 to 9.
#[derive(Clone, Copy, PartialEq, Eq, Debug)]
pub struct MarkSpan;

impl Span for MarkSpan {
    const LEAST: i64 = 0;

    const GREATEST: i64 = 9;

    ghost LEAST = { pos 0 };

    ghost GREATEST = { pos 9 };

    ghost ranged = { (le_z_yes tt, le_z_yes tt, le_z_yes tt, le_z_yes tt, tt) };
}

/// The root layer's place in front: −1 for an arc from the root, 0 for any other.
#[derive(Clone, Copy, PartialEq, Eq, Debug)]
pub struct RootSpan;

impl Span for RootSpan {
    const LEAST: i64 = -1;

    const GREATEST: i64 = 0;

    ghost LEAST = { neg_ℤ (pos 1) };

    ghost GREATEST = { pos 0 };

    ghost ranged = { (le_z_yes tt, le_z_yes tt, le_z_yes tt, le_z_yes tt, tt) };
}
