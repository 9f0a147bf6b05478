// What the programs share at their edges: the lines of an input, none of which may be endless, and the end of an output.
#![tactic(auto)]

ghost use Rattle.console.specs.Lines.{GivesLine, GivesPart, IsLine, line_item};
ghost use Rattle.console.specs.Inputs.{lines_remaining};
ghost use Rattle.console.specs.declared.LineError.TheVariants.{Io};
ghost use Rattle.console.specs.Ends.{told_text, EndsAs, IsOutOfMemory};
ghost use Rattle.std.specs.Io.BufRead.{strip_last};
ghost use Rattle.std.specs.Io.KnownBytes.{Appends};
ghost use Rattle.std.specs.Io.{IsEmptyOrEndsWith};
ghost use Rattle.std.specs.Iterator.{at_most};
ghost use Rattle.std.specs.Prelude.{◌≡◌, ◌≢◌, ◌<◌, ◌≤◌, ◌+◌, ◌-◌, ◌^◌, true, false, length, take, All, IfOk, MatchOption, [], slice_index, OnOk, Ok, Err};
ghost use Rattle.std.specs.IoError.{error_kind};
ghost use Rattle.std.specs.declared.io.ErrorKind.TheVariants.{Interrupted};

mod answers;
/// A reader and a writer of one byte a call.
pub mod pieces;

pub use answers::{Answer, answer_lines};
use std::alloc::{AllocError, Global};
use std::io::{BufRead, ErrorKind, Write};
use std::{env, io};

// How many bytes a line has at most, its LF not counted.
const MOST_BYTES: usize = 65_535;

/// Why a program ends before its input does.
#[derive(Drop, Debug)]
pub enum LineError {
    /// a line has more than 65,535 bytes
    TooLong,
    /// reading or writing failed, or there is no memory
    Io(io::Error),
}

impl From<io::Error> for LineError {
    ghost from_gives = { λ error e. e ≡ Io error };

    fn from(error: io::Error) -> LineError {
        LineError::Io(error)
    }
}

impl From<AllocError> for LineError {
    ghost from_gives = { λ _ e. IsOutOfMemory e };

    fn from(error: AllocError) -> LineError {
        LineError::Io(error.into())
    }
}

// How many of the bytes come up to and with the first LF, or all of them.
fn length_through(bytes: &[u8]) -> usize
    ensures bound { result ≤ length bytes.now }
    ensures some { 0 < length bytes.now → 0 < result }
    ensures before { All (λ b. b ≢ 10) (take (result - 1) bytes.now) }
{
    match bytes.iter().position(|byte| *byte == b'\n') {
        Some(place) => place + 1,
        None => bytes.len(),
    }
}

// Whether a line ends with the part: this ends with LF, or is empty, since the input has no more.
fn ends_line(part: &[u8]) -> bool
    ensures yes { result ≡ true → IsEmptyOrEndsWith part.now 10 }
    ensures no { result ≡ false → (0 < length part.now) × (slice_index part.now (length part.now - 1) ≢ 10) }
{
    part.is_empty() || part[part.len() - 1] == b'\n'
}

// After a failed look at the input: an interrupted one is tried again, any other failure is told.
fn after_failure(error: io::Error) -> io::Result<bool>
    ensures again { error_kind error ≡ Interrupted → result ≡ Ok false }
    ensures told { error_kind error ≢ Interrupted → result ≡ Err error }
{
    if error.kind() == ErrorKind::Interrupted {
        Ok(false)
    } else {
        Err(error)
    }
}

// Puts what the reader has at hand behind the line, up to and with the first LF, and at most `room` bytes.
// Whether the line ends there: with its LF, or with the input.
fn take_part<R: BufRead>(input: &mut R, line: &mut Vec<u8>, room: usize) -> io::Result<bool>
    requires { 0 < room }
    ensures { IfOk result (λ ends. GivesPart (R.remaining input.old) line.old.items room ends line.new.items (R.remaining input.new)) }
{
    let available = match input.fill_buf() {
        Ok(available) => available,
        Err(error) => return after_failure(error),
    };
    let most = available.len().min(room);
    let end = length_through(&available[..most]);
    let part = &available[..end];
    line.extend_from_slice(part)?;
    let ends = ends_line(part);
    input.consume(end);
    Ok(ends)
}

// What was read of a line, without its LF; none where nothing was read.
fn without_end(read: Vec<u8>) -> Option<Vec<u8>>
    ensures { MatchOption result (read.items ≡ []) (λ line. (0 < length read.items) × (line.items ≡ strip_last 10 read.items)) }
{
    let mut line = read;
    if line.is_empty() {
        return None;
    }
    if line.last() == Some(&b'\n') {
        line.pop();
    }
    Some(line)
}

// Reads one line; none where the input has no more.
fn read_line<R: BufRead>(heap: Global, input: &mut R) -> Result<Option<Vec<u8>>, LineError>
    ensures gives { GivesLine (R.remaining input.old) (line_item result) (R.remaining input.new) }
    ensures line { IsLine (line_item result) }
{
    let mut line = Vec::new(heap);
    for _ in 0..u64::MAX {
        // a line has 65,536 bytes at most with its LF
        let room = (MOST_BYTES + 1).saturating_sub(line.len());
        if room == 0 {
            return Err(LineError::TooLong);
        }
        if take_part(input, &mut line, room)? {
            return Ok(without_end(line));
        }
    }
    Err(LineError::Io(ErrorKind::TimedOut.into()))
}

/// The lines of an input that are still to come, each without its LF; at most 2^64 - 2 of them.
/// One of more than 65,535 bytes is an error, so that an endless one is not waited for.
#[derive(Drop)]
pub struct Lines<R> {
    input: R,
    heap: Global,
    left: u64,
}

impl<R: BufRead + Drop> Iterator for Lines<R> {
    type Item = Result<Vec<u8>, LineError>;

    ghost next_gives = { λ s item t. GivesLine (lines_remaining R.remaining s) item (lines_remaining R.remaining t) × IsLine item };

    ghost remaining = { λ s. at_most s.left };

    fn next(&mut self) -> Option<Result<Vec<u8>, LineError>> {
        self.left = self.left.checked_sub(1)?;
        if self.left == 0 {
            return Some(Err(LineError::Io(ErrorKind::TimedOut.into())));
        }
        read_line(self.heap, &mut self.input).transpose()
    }
}

/// All lines of the input.
pub fn lines_of<R: BufRead>(heap: Global, input: R) -> Lines<R>
    ensures all { lines_remaining R.remaining result ≡ R.remaining input }
    ensures many { result.left + 1 ≡ 2 ^ 64 }
{
    Lines {
        input,
        heap,
        left: u64::MAX,
    }
}

/// How a program ends: where nobody reads its output any more it has done its work; of a line that is too long it tells.
pub fn ended(rt: &HostRuntime, outcome: Result<(), LineError>) -> io::Result<()>
    ensures { EndsAs outcome result }
{
    // where this can not be told, the status still tells it
    let _ = tell(&mut rt.stderr(), &outcome);
    match outcome {
        Ok(()) => Ok(()),
        Err(LineError::TooLong) => Err(ErrorKind::InvalidData.into()),
        Err(LineError::Io(error)) => {
            if error.kind() == ErrorKind::BrokenPipe {
                Ok(())
            } else {
                Err(error)
            }
        }
    }
}

// Tells that a line is too long, and nothing of any other outcome.
fn tell<W: Write>(errors: &mut W, outcome: &Result<(), LineError>) -> io::Result<()>
    ensures { OnOk result (Appends (W.contents errors.old) (W.contents errors.new) (told_text outcome.now)) }
{
    match outcome {
        Err(LineError::TooLong) => errors.write_all(
            b"the input has a line of more than 65,535 bytes\n",
        ),
        _ => Ok(()),
    }
}

/// Lets a program go on that was called without arguments; any other is told how it is used.
pub fn refuse_arguments(rt: &HostRuntime, usage: &str) -> io::Result<()> {
    if env::args(rt)?.nth(1).is_none() {
        return Ok(());
    }
    eprintln!(rt; "usage: {usage}")?;
    Err(ErrorKind::InvalidInput.into())
}

#[cfg(test)]
mod tests;
