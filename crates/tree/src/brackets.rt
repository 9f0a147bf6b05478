// A tree drawn in brackets: each word is followed by its dependents, `1(2 3)`.
ghost use Rattle.std.specs.Prelude.{◌≡◌, ℕ, ◌+◌, ◌<◌, ◌≤◌, length, Ok, MatchOption};
ghost use Rattle.text.specs.Space.{written};
ghost use Rattle.tree.specs.Brackets.{bracketed, Drawn, WrittenLikewise};
ghost use Rattle.tree.specs.Trees.{LineTree, Rooted};

use crate::check::check_heads;
use refusal::Refusal;
use text::{put, width};

/// Draws the tree of the heads at the front of the space, and returns the length of the text.
/// Heads that form no single-root tree are refused, then too short a space; a refusal leaves the space as it was.
#[tactic(auto, using(crate::proofs::Depths::rooted, crate::proofs::Depths::written_likewise))]
pub fn write_brackets(heads: &[u8], space: &mut [u8]) -> Result<usize, Refusal>
    ensures drawn { Drawn heads.now space.old result space.new }
    ensures likewise { (root : ℕ) → LineTree heads.now root → WrittenLikewise heads.now }
{
    let root = check_heads(heads)?;
    room_behind(heads, root, space.len()).ok_or(Refusal::ShortSpace)?;
    write_word(heads, root, space, 0)
}

// What is left of the room behind the text of the word, or none where the text is longer.
#[tactic(auto, using(crate::proofs::Depths::length_bracketed, crate::proofs::Depths::falls, crate::proofs::Rests::length_rest, crate::proofs::Rests::rest_no, crate::proofs::Rests::rest_none, crate::proofs::Rests::rest_last))]
fn room_behind(heads: &[u8], word: usize, room: usize) -> Option<usize>
    requires { Rooted heads.now }
    ensures { MatchOption result (room < length (bracketed heads.now word)) (λ free. free + length (bracketed heads.now word) ≡ room) }
{
    let mut free = room.checked_sub(width(word))?;
    let mut first = true;
    for (i, head) in heads.iter().enumerate() {
        if usize::from(*head) == word {
            free = room_behind(heads, i + 1, free.checked_sub(1)?)?;
            first = false;
        }
    }
    if first {
        Some(free)
    } else {
        free.checked_sub(1)
    }
}

// Writes the word with its dependents from the place `at` on, where there is room; returns the place behind.
#[tactic(auto, using(crate::proofs::Depths::length_bracketed, crate::proofs::Rests::length_rest, crate::proofs::Rests::rest_none, crate::proofs::Rests::rest_last))]
fn write_word(heads: &[u8], word: usize, space: &mut [u8], at: usize) -> Result<usize, Refusal>
    requires rooted { Rooted heads.now }
    requires fits { at + length (bracketed heads.now word) ≤ length space.old }
    ensures end { result ≡ Ok (at + length (bracketed heads.now word)) }
    ensures after { space.new ≡ written space.old at (bracketed heads.now word) }
{
    let mut end = put(word, space, at)?;
    let mut first = true;
    for (i, head) in heads.iter().enumerate() {
        if usize::from(*head) == word {
            space[end] = if first { b'(' } else { b' ' };
            end = write_word(heads, i + 1, space, end + 1)?;
            first = false;
        }
    }
    if first {
        return Ok(end);
    }
    space[end] = b')';
    Ok(end + 1)
}
