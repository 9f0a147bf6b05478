// How the weights of each kind lie in a record of a file.
ghost use Rattle.std.specs.Prelude.{◌≡◌, ◌+◌, ◌≤◌, [], ◌∷◌, cond, Some, None, length, nat_le, slice_index, refl};
ghost use Rattle.file.specs.Formats.{cost_format, Format, mark_format, score_format, weight_read};
ghost use Rattle.std.proofs.Common.{lit≤};
ghost use Rattle.weight.specs.Range.{entry_in};

use crate::fault::FileKind;
use weight::{Cost, Mark, Opens, Score};

/// A kind that a file can hold.
pub trait Recorded: Opens {
    // how the weights lie in a record
    ghost format: { Format Self };

    /// Which kind of file holds it.
    fn file_kind() -> FileKind
        ensures { result ≡ format.kind };

    /// How many bytes a weight has.
    fn bytes() -> usize
        ensures { result ≡ format.width };

    /// The weight in the bytes from a place on, if they are all there.
    fn weight(file: &[u8], at: usize) -> Option<Self>
        ensures { result ≡ weight_read format file.now at };

    ghost narrow: { format.width ≤ 5 };

    ghost few_places: { Self.places ≤ 2 };

    // a file's entries are the kind's own
    ghost entries: { (x : Self) → format.entry x ≡ entry_in Self.ranges (Self.worth x) };
}

// The four bytes from a place on, if they are all there.
fn four_at(file: &[u8], at: usize) -> Option<[u8; 4]>
    ensures { result ≡ cond (nat_le (at + 4) (length file.now)) (Some (slice_index file.now at ∷ slice_index file.now (at + 1) ∷ slice_index file.now (at + 2) ∷ slice_index file.now (at + 3) ∷ [])) None }
{
    file.get(at..)?.first_chunk().copied()
}

impl Recorded for Score {
    ghost format = { score_format };

    ghost narrow = { lit≤ tt };

    ghost few_places = { lit≤ tt };

    ghost entries = { λ _. refl };

    fn file_kind() -> FileKind {
        FileKind::Score
    }

    fn bytes() -> usize {
        4
    }

    fn weight(file: &[u8], at: usize) -> Option<Score> {
        let four = four_at(file, at)?;
        Some(Score::new(i64::from(i32::from_be_bytes(four))))
    }
}

impl Recorded for Cost {
    ghost format = { cost_format };

    ghost narrow = { lit≤ tt };

    ghost few_places = { lit≤ tt };

    ghost entries = { λ _. refl };

    fn file_kind() -> FileKind {
        FileKind::Cost
    }

    fn bytes() -> usize {
        4
    }

    fn weight(file: &[u8], at: usize) -> Option<Cost> {
        let four = four_at(file, at)?;
        Some(Cost::new(u32::from_be_bytes(four)))
    }
}

impl Recorded for Mark<Score> {
    ghost format = { mark_format };

    ghost narrow = { lit≤ tt };

    ghost few_places = { lit≤ tt };

    ghost entries = { λ _. refl };

    fn file_kind() -> FileKind {
        FileKind::Mark
    }

    fn bytes() -> usize {
        5
    }

    fn weight(file: &[u8], at: usize) -> Option<Mark<Score>> {
        let mark = *file.get(at)?;
        let score = <Score as Recorded>::weight(file, at + 1)?;
        Some(Mark::new(mark, score))
    }
}
