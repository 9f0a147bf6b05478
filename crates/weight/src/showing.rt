// Places in decimal, at the front of a space that is lent.
ghost use Rattle.std.specs.Prelude.{[], ◌∷◌};
ghost use Rattle.weight.specs.Text.{Shown};

use crate::Kind;
use refusal::Refusal;
use text::{put, width};

/// Shows a single place.
pub fn show_place(place: i64, space: &mut [u8]) -> Result<usize, Refusal>
    ensures { Shown (place ∷ []) space.old space.new result }
{
    put(place, space, 0)
}

/// Shows a place, a comma, and the places of the weight behind it.
pub fn show_front<K: Kind>(front: i64, rest: &K, space: &mut [u8]) -> Result<usize, Refusal>
    ensures { Shown (front ∷ K.Kind.worth rest.now) space.old space.new result }
{
    let behind = width(front) + 1;
    if behind > space.len() {
        return Err(Refusal::ShortSpace);
    }
    let n = rest.show(&mut space[behind..])?;
    let _ = put(front, space, 0);
    space[behind - 1] = b',';
    Ok(behind + n)
}
