// The lines that tell a ranking: one for each tree and a last one, or a single one for a refused file.
// Each call writes to the front of the space and returns the length of the line;
// too short a space is refused and left as it was.
#![tactic(auto)]

ghost use Rattle.lines.specs.Ends.{end_number, ToldEnd};
ghost use Rattle.lines.specs.Lengths.{ShortLines};
ghost use Rattle.lines.specs.Lines.{tree_text, last_text, refused_line_text, ToldFields};
ghost use Rattle.std.specs.Prelude.{◌≡◌};
ghost use Rattle.text.specs.Space.{Placed};

mod refused;
mod tree;
mod writing;

use refusal::Refusal;
use refused::Refused;
use tree::Around;
use weight::Kind;

/// How a ranking ends.
#[derive(Clone, Copy, PartialEq, Eq, Debug)]
pub enum Last {
    /// the sheet has no single-root tree
    NoTree = 8,
    /// every tree of the sheet was taken
    NoMore = 9,
    /// fifty trees were taken
    Fifty = 10,
}

impl Last {
    /// The number of the refusal that tells this end.
    pub fn number(self) -> u8
        ensures { result ≡ end_number self }
    {
        self as u8
    }
}

// The end that a refused take tells. Any other refusal tells no end, and is given back.
impl TryFrom<Refusal> for Last {
    type Error = Refusal;

    ghost try_from_gives = { ToldEnd };

    fn try_from(why: Refusal) -> Result<Last, Refusal> {
        for last in [Last::NoTree, Last::NoMore, Last::Fifty] {
            if last.number() == why.number() {
                return Ok(last);
            }
        }
        Err(why)
    }
}

/// The line of a tree: its number in the ranking, its weight and its heads.
pub fn tree_line<K: Kind>(
    number: usize,
    weight: &K,
    heads: &[u8],
    space: &mut [u8],
) -> Result<usize, Refusal>
    ensures { Placed (tree_text number (K.Kind.worth weight.now) heads.now) space.old 0 result space.new }
{
    let around = Around { number, heads };
    let room = around.weight_room(space.len()).ok_or(Refusal::ShortSpace)?;
    around.write(weight, room, space)
}

/// The last line of a ranking: bytes, and no `Display`, since the space is lent and there is no heap.
pub fn last_line(last: Last, space: &mut [u8]) -> Result<usize, Refusal>
    ensures { Placed (last_text last) space.old 0 result space.new }
{
    match last {
        Last::NoTree => writing::put_bytes(b"no tree\n", space, 0),
        Last::NoMore => writing::put_bytes(b"no more\n", space, 0),
        Last::Fifty => writing::put_bytes(b"fifty\n", space, 0),
    }
}

/// The line of a refused file: the number of the refusal, and the place of the byte at fault.
pub fn refused_line(number: u8, place: usize, space: &mut [u8]) -> Result<usize, Refusal>
    ensures { Placed (refused_line_text number place) space.old 0 result space.new }
{
    let refused = Refused { number, place };
    if space.len() < refused.text_length() {
        return Err(Refusal::ShortSpace);
    }
    refused.write(space)
}

/// What holds of all lines: the fields of a tree's, and how long each is at most.
pub fn laws()
    ensures fields { ToldFields }
    ensures lengths { ShortLines }
{}

#[cfg(test)]
mod tests;
