// Pieces of a line, written into a space.
ghost use Rattle.std.specs.Prelude.{◌≡◌, ◌+◌, ◌<◌, ◌≤◌, length, Ok, MatchOption};
ghost use Rattle.text.specs.Space.{written, Placed};
ghost use Rattle.text.specs.Spaced.{spaced};

use refusal::Refusal;
use text::{put, width};

// Writes the bytes from the place `at` on; returns the place behind them.
// Too short a space is refused and left as it was.
#[tactic(auto, using(crate::proofs::Parts::part_filled))]
pub(crate) fn put_bytes(bytes: &[u8], space: &mut [u8], at: usize) -> Result<usize, Refusal>
    ensures { Placed bytes.now space.old at result space.new }
{
    if at > space.len() || space.len() - at < bytes.len() {
        return Err(Refusal::ShortSpace);
    }
    let end = at + bytes.len();
    space[at..end].copy_from_slice(bytes);
    Ok(end)
}

// What is left of the room behind the numbers with one blank between, or none where their text is longer.
#[tactic(auto, using(crate::proofs::Spacing::length_split, crate::proofs::Spacing::length_blanked, crate::proofs::Spacing::spaced_none, std::proofs::lemmas::List::drop_all))]
pub(crate) fn room_behind(numbers: &[u8], room: usize) -> Option<usize>
    ensures { MatchOption result (room < length (spaced numbers.now)) (λ free. free + length (spaced numbers.now) ≡ room) }
{
    let [first, rest @ ..] = numbers else {
        return Some(room);
    };
    let mut free = room.checked_sub(width(*first))?;
    for number in rest {
        free = free.checked_sub(width(*number) + 1)?;
    }
    Some(free)
}

// Writes the numbers with one blank between from the place `at` on, where there is room; returns the place behind.
#[tactic(auto, using(crate::proofs::Spacing::length_split, crate::proofs::Spacing::length_blanked, crate::proofs::Spacing::spaced_none))]
pub(crate) fn write_spaced(numbers: &[u8], space: &mut [u8], at: usize) -> Result<usize, Refusal>
    requires { at + length (spaced numbers.now) ≤ length space.old }
    ensures end { result ≡ Ok (at + length (spaced numbers.now)) }
    ensures after { space.new ≡ written space.old at (spaced numbers.now) }
{
    let [first, rest @ ..] = numbers else {
        return Ok(at);
    };
    let mut end = put(*first, space, at)?;
    for number in rest {
        space[end] = b' ';
        end = put(*number, space, end + 1)?;
    }
    Ok(end)
}
