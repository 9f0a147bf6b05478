// The line of a tree. How long a weight's text is shows only when it is written, so the weight comes first,
// into just the room that the rest of the line leaves: if it does not fit, nothing was written yet.
ghost use Rattle.std.specs.Prelude.{◌≡◌, ◌+◌, ◌<◌, ◌≤◌, length, Ok, MatchOption};
ghost use Rattle.lines.specs.Lines.{before_weight, behind_weight, tree_text};
ghost use Rattle.text.specs.Space.{written, Placed};
ghost use Rattle.weight.specs.Worth.{Worth};

use crate::writing::{room_behind, write_spaced};
use refusal::Refusal;
use text::{put, width};
use weight::Kind;

// What stands around the weight: the tree's number in the ranking before it, and its heads behind.
#[derive(Drop)]
pub(crate) struct Around<'a> {
    pub(crate) number: usize,
    pub(crate) heads: &'a [u8],
}

impl Around<'_> {
    // The room for the weight, or none where no weight fits; the TABs and the end take three bytes.
    #[tactic(auto, using(crate::proofs::Pieces::length_tree, crate::proofs::Pieces::length_before, crate::proofs::Pieces::length_behind, crate::proofs::Pieces::room_between))]
    pub(crate) fn weight_room(&self, len: usize) -> Option<usize>
        ensures { MatchOption result ((a : Worth) → len < length (tree_text self.now.number a self.now.heads.now)) (λ room. length (before_weight self.now.number) + (room + length (behind_weight self.now.heads.now)) ≡ len) }
    {
        let room = len.checked_sub(width(self.number) + 3)?;
        room_behind(self.heads, room)
    }

    // Writes the line, whose weight has just this room.
    #[tactic(auto, using(crate::proofs::Pieces::length_before, crate::proofs::Pieces::tree_refused, crate::proofs::Pieces::tree_shown, crate::proofs::Pieces::tree_room))]
    pub(crate) fn write<K: Kind>(
        &self,
        weight: &K,
        room: usize,
        space: &mut [u8],
    ) -> Result<usize, Refusal>
        requires { length (before_weight self.now.number) + (room + length (behind_weight self.now.heads.now)) ≡ length space.old }
        ensures { Placed (tree_text self.now.number (K.Kind.worth weight.now) self.now.heads.now) space.old 0 result space.new }
    {
        let front = width(self.number) + 1;
        let shown = weight.show(&mut space[front..front + room])?;
        self.write_sides(front + shown, space)
    }

    // Writes what stands before the weight and what stands behind it, from the place `at` on.
    #[tactic(auto, using(crate::proofs::Pieces::length_before, crate::proofs::Pieces::length_behind, crate::proofs::Pieces::around_put))]
    fn write_sides(&self, at: usize, space: &mut [u8]) -> Result<usize, Refusal>
        requires before { length (before_weight self.now.number) ≤ at }
        requires fits { at + length (behind_weight self.now.heads.now) ≤ length space.old }
        ensures end { result ≡ Ok (at + length (behind_weight self.now.heads.now)) }
        ensures after { space.new ≡ written (written space.old 0 (before_weight self.now.number)) at (behind_weight self.now.heads.now) }
    {
        let tab = put(self.number, space, 0)?;
        space[tab] = b'\t';
        space[at] = b'\t';
        let end = write_spaced(self.heads, space, at + 1)?;
        space[end] = b'\n';
        Ok(end + 1)
    }
}
