// The line of a refused file.
ghost use Rattle.std.specs.Prelude.{◌≡◌, ◌≤◌, length};
ghost use Rattle.lines.specs.Lines.{refused_line_text};
ghost use Rattle.text.specs.Space.{Placed};

use crate::writing::put_bytes;
use refusal::Refusal;
use text::{put, width};

// A refused file: the number of the refusal, and the place of the byte at fault.
#[derive(Clone, Copy)]
pub(crate) struct Refused {
    pub(crate) number: u8,
    pub(crate) place: usize,
}

impl Refused {
    // How long the line is: its words, blanks and end take 13 bytes.
    #[tactic(auto, using(crate::proofs::Pieces::length_refused))]
    pub(crate) fn text_length(self) -> usize
        ensures { result ≡ length (refused_line_text self.number self.place) }
    {
        width(self.number) + width(self.place) + 13
    }

    // Writes the line to the front of the space, where there is room.
    #[tactic(auto, using(crate::proofs::Pieces::length_refused))]
    pub(crate) fn write(self, space: &mut [u8]) -> Result<usize, Refusal>
        requires { length (refused_line_text self.number self.place) ≤ length space.old }
        ensures { Placed (refused_line_text self.number self.place) space.old 0 result space.new }
    {
        let end = put_bytes(b"refused ", space, 0)?;
        let end = put(self.number, space, end)?;
        let end = put_bytes(b" at ", space, end)?;
        let end = put(self.place, space, end)?;
        put_bytes(b"\n", space, end)
    }
}
