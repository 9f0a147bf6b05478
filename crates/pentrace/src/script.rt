// A script that is read line by line.
ghost use Rattle.std.specs.Prelude.{◌≡◌, ◌≤◌, [], None, IfOk, OnOk, vec_len};

use crate::{Line, Order, read_order, too_many_text, write_part};
use std::alloc::Global;
use std::io;
use std::io::Write;

// How many lines of a script may stand behind an `open`: its calls wait until the next, and an endless script is not waited for.
const MOST_LINES: usize = 65_536;

/// What a script has come to: how many of its lines were read, and the part that the last of them stand in, from an `open` on;
/// none is open before the first.
#[derive(Drop)]
pub struct Script {
    read: usize,
    words: Option<usize>,
    lines: Vec<Line>,
    ghost few: { vec_len lines ≤ 65536 },
}

impl Script {
    ghost use Rattle.console.specs.Answers.{Writes};
    ghost use Rattle.pentrace.specs.Reading.{LineKept, LineRead};
    ghost use Rattle.pentrace.specs.Script.{PartText};

    /// Of which no line was read yet.
    pub fn new(heap: Global) -> Self
        ensures read { result.read ≡ 0 }
        ensures words { result.words ≡ None }
        ensures lines { result.lines.items ≡ [] }
    {
        Script {
            read: 0,
            words: None,
            lines: Vec::new(heap),
        }
    }

    /// Writes the part with its answers.
    pub fn finish<W: Write>(&self, heap: Global, out: &mut W) -> io::Result<()>
        ensures { OnOk result (Writes (W.contents out.old) (W.contents out.new) (PartText self.now.words self.now.lines.items)) }
    {
        write_part(heap, self.words, self.lines.as_slice(), out)
    }

    // Takes a line to the part. Where there is no room for it, writes the part with its answers, and tells so. Whether there was room.
    fn keep<W: Write>(&mut self, heap: Global, line: Line, out: &mut W) -> io::Result<bool>
        ensures same { IfOk result (λ more. self.new.read ≡ self.old.read) }
        ensures kept { IfOk result (LineKept self.old self.new line (W.contents out.old) (W.contents out.new)) }
    {
        if self.lines.len() >= MOST_LINES {
            self.finish(heap, out)?;
            let told = too_many_text(heap, self.read)?;
            out.write_all(told.as_bytes())?;
            return Ok(false);
        }
        self.lines.push(line)?;
        Ok(true)
    }

    /// Counts a line and does what it asks for. Whether the script goes on.
    pub fn step<W: Write>(&mut self, heap: Global, line: &[u8], out: &mut W) -> io::Result<bool>
        ensures { IfOk result (LineRead self.old self.new line.now (W.contents out.old) (W.contents out.new)) }
    {
        let number = self.read.saturating_add(1);
        self.read = number;
        match read_order(line) {
            Some(Order::Open(words)) => {
                self.finish(heap, out)?;
                self.words = Some(words);
                self.lines = Vec::new(heap);
                Ok(true)
            }
            Some(Order::Call(call)) => self.keep(heap, Ok(call), out),
            None => self.keep(heap, Err(number), out),
        }
    }
}
