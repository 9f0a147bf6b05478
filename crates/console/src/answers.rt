// A program that answers each line of its input by a text.
ghost use Rattle.console.specs.Answers.{AnswersEach};
ghost use Rattle.console.specs.Lines.{lines_in};
ghost use Rattle.std.specs.Prelude.{ℕ, List, IfOk, IfSome};

use crate::{LineError, lines_of};
use std::alloc::{AllocError, Global};
use std::io::{BufRead, Write};

/// How a line is answered.
pub trait Answer {
    // the text is an answer to the line
    ghost answers: { List ℕ → List ℕ → Type 0 };

    /// The answer to a line.
    fn answer(&mut self, line: &[u8]) -> Result<Vec<u8>, AllocError>
        ensures { IfOk result (λ text. answers line.now text.items) };
}

/// Writes the answer to each line of the input, in order.
pub fn answer_lines<R: BufRead + Drop, W: Write, A: Answer>(
    heap: Global,
    input: R,
    out: &mut W,
    by: &mut A,
) -> Result<(), LineError>
    ensures { IfSome (R.remaining input) (λ bytes. AnswersEach A.answers (lines_in bytes) result (W.contents out.old) (W.contents out.new)) }
{
    for line in lines_of(heap, input) {
        let text = by.answer(line?.as_slice())?;
        out.write_all(text.as_slice())?;
    }
    Ok(())
}
