// Reads a script of calls on sheets of scores from standard input, one call a line, makes the calls, and prints each with its
// answer. A line is `open N`, `put H D W`, `strike H D`, `begin`, `take`, `take S` or `end`: N words, head H, dependent D, score
// W, S bytes of space. Every `open` starts a new sheet.
#![tactic(auto)]

mod script;

ghost use Rattle.console.specs.Answers.{Writes};
ghost use Rattle.console.specs.Lines.{lines_in};
ghost use Rattle.pentrace.specs.Orders.{Said, Reads, held};
ghost use Rattle.pentrace.specs.Script.{calls_in, opens, OneText, PartText, ScriptAnswered, SheetText, TurnsOf};
ghost use Rattle.pentrace.specs.Texts.{call_text, handed_heads_text, handed_text, answer_text, ending_text, misplaced_text, refusal_text, turn_text, lines_text, open_text, too_many_text};
ghost use Rattle.run.specs.declared.Call.{Call};
ghost use Rattle.std.specs.Io.KnownBytes.{Appends};
ghost use Rattle.std.specs.Prelude.{◌≡◌, ℕ, List, Result, ◌∷◌, ◌++◌, IfOk, IfSome, string_bytes, OnOk};
ghost use Rattle.std.specs.Slice.Iter.{iter_rest};
ghost use Rattle.weight.specs.Numbers.{Score};

use console::{LineError, ended, lines_of, refuse_arguments};
use desk::Memory;
use ranking::Taken;
use refusal::Refusal;
use run::{Answer, Call, Turn};
use script::Script;
use std::alloc::{AllocError, Global};
use std::io::{BufRead, BufReader, ErrorKind, Write};
use std::{io, slice};
use weight::Score;

/// How a script ended.
#[derive(Clone, Copy, PartialEq, Eq, Debug)]
pub enum ScriptEnd {
    /// each of its lines was read and answered
    Whole,
    /// more lines stood behind one `open`, or before the first, than are kept
    TooMany,
}

// What a line of a script asks for.
#[derive(Drop)]
enum Order {
    // a new sheet of so many words
    Open(usize),
    // a call on the sheet that is open
    Call(Call<Score>),
}

// A line of a script after an `open`: a call, or the number of a line that is no call.
type Line = Result<Call<Score>, usize>;

// The order that a name and up to three numbers give.
fn order_of(
    name: &str,
    first: Option<&str>,
    second: Option<&str>,
    third: Option<&str>,
) -> Option<Order>
    ensures { Said name.now (held first.entry) (held second.entry) (held third.entry) result }
{
    let call = match (name, first, second, third) {
        ("open", Some(words), None, None) => return Some(Order::Open(words.parse().ok()?)),
        ("put", Some(head), Some(dependent), Some(weight)) => {
            let weight = Score::new(weight.parse().ok()?);
            Call::Put(head.parse().ok()?, dependent.parse().ok()?, weight)
        }
        ("strike", Some(head), Some(dependent), None) => {
            Call::Strike(head.parse().ok()?, dependent.parse().ok()?)
        }
        ("begin", None, None, None) => Call::Begin,
        ("take", None, None, None) => Call::Take(40),
        ("take", Some(room), None, None) => Call::Take(room.parse().ok()?),
        ("end", None, None, None) => Call::End,
        _ => return None,
    };
    Some(Order::Call(call))
}

// The order of a line; none where the line is no call.
fn read_order(line: &[u8]) -> Option<Order>
    ensures { Reads line.now result }
{
    let text = std::str::from_utf8(line).ok()?;
    let mut words = text.split_ascii_whitespace();
    let name = words.next()?;
    let first = words.next();
    let second = words.next();
    let third = words.next();
    if words.next().is_some() {
        return None;
    }
    order_of(name, first, second, third)
}

// The calls among the lines, in their order.
fn calls_in(heap: Global, lines: &[Line]) -> Result<Vec<Call<Score>>, AllocError>
    ensures { IfOk result (λ v. v.items ≡ calls_in lines.now) }
{
    lines.iter().filter_map(|line| line.ok()).collect(heap)
}

// A call as it stands in a script.
fn call_text(heap: Global, call: &Call<Score>) -> Result<String, AllocError>
    ensures { IfOk result (λ s. string_bytes s ≡ call_text call.now) }
{
    match call {
        Call::Put(head, dependent, weight) => {
            let weight = weight.value();
            format!(in heap; "put {head} {dependent} {weight}")
        }
        Call::Strike(head, dependent) => format!(in heap; "strike {head} {dependent}"),
        Call::Begin => String::from_str(heap, "begin"),
        Call::Take(room) => format!(in heap; "take {room}"),
        Call::End => String::from_str(heap, "end"),
    }
}

// Puts the heads behind the text, a blank before each.
fn push_heads(heap: Global, text: &mut String, heads: &[u8]) -> Result<(), AllocError>
    ensures { IfOk result (λ _. string_bytes text.new ≡ string_bytes text.old ++ handed_heads_text heads.now) }
{
    for head in heads {
        let head = format!(in heap; " {head}")?;
        text.push_str(head.as_str())?;
    }
    Ok(())
}

// A tree that was handed out: its number, its weight and its heads.
fn handed_text(
    heap: Global,
    words: usize,
    heads: &[u8; 40],
    taken: &Taken<Score>,
) -> Result<String, AllocError>
    ensures { IfOk result (λ s. string_bytes s ≡ handed_text words heads.now taken.now) }
{
    let count = taken.count;
    let weight = taken.weight.value();
    let mut text = format!(in heap; "tree {count}, weight {weight}, heads")?;
    push_heads(heap, &mut text, heads.get(..words).unwrap_or(heads))?;
    Ok(text)
}

// How the ranking ends, where a refusal tells it: with a comma before it, and empty for nine refusals of twelve, so no `Display`.
fn ending(why: Refusal) -> &'static str
    ensures { result.now ≡ ending_text why }
{
    match why {
        Refusal::NoTree => ", no tree",
        Refusal::NoMore => ", no more",
        Refusal::Fifty => ", fifty",
        _ => "",
    }
}

// A refusal: its number, and how the ranking ends.
fn refusal_text(heap: Global, why: Refusal) -> Result<String, AllocError>
    ensures { IfOk result (λ s. string_bytes s ≡ refusal_text why) }
{
    let end = ending(why);
    format!(in heap; "{why}{end}")
}

// Why a call is misplaced: a ranking stands, or none does where the call wants one.
fn misplaced(call: Call<Score>) -> &'static str
    ensures { result.now ≡ misplaced_text call }
{
    match call {
        Call::Take(_) | Call::End => "misplaced, no ranking stands",
        _ => "misplaced, a ranking stands",
    }
}

// What a turn on a sheet of so many words answered.
fn answer_text(heap: Global, words: usize, turn: &Turn<Score>) -> Result<String, AllocError>
    ensures { IfOk result (λ s. string_bytes s ≡ answer_text words turn.now.call turn.now.answer) }
{
    match &turn.answer {
        Answer::Done => String::from_str(heap, "done"),
        Answer::Handed(heads, taken) => handed_text(heap, words, heads, taken),
        Answer::Refused(why) => refusal_text(heap, *why),
        Answer::Misplaced => String::from_str(heap, misplaced(turn.call)),
    }
}

// A call with its answer; a call without a turn had no sheet.
fn turn_text(
    heap: Global,
    words: usize,
    call: &Call<Score>,
    turn: Option<&Turn<Score>>,
) -> Result<String, AllocError>
    ensures { IfOk result (λ s. string_bytes s ≡ turn_text words call.now (held turn.entry)) }
{
    let call = call_text(heap, call)?;
    match turn {
        Some(turn) => {
            let answer = answer_text(heap, words, turn)?;
            format!(in heap; "{call}: {answer}\n")
        }
        None => format!(in heap; "{call}: no sheet is open\n"),
    }
}

// The text of a line, a call with the first of the turns to come.
fn line_text(
    heap: Global,
    words: usize,
    line: &Line,
    turns: &mut slice::Iter<'_, Turn<Score>>,
) -> Result<String, AllocError>
    ensures { IfOk result (λ s. (lines : List (Result (Call Score) ℕ)) → lines_text words (line.now ∷ lines) (iter_rest turns.old) ≡ string_bytes s ++ lines_text words lines (iter_rest turns.new)) }
{
    match line {
        Ok(call) => turn_text(heap, words, call, turns.next()),
        Err(number) => format!(in heap; "line {number}: no call\n"),
    }
}

// Writes the lines of a part, the calls among them with the turns of a run.
fn write_lines<W: Write>(
    heap: Global,
    words: usize,
    lines: &[Line],
    turns: &[Turn<Score>],
    out: &mut W,
) -> io::Result<()>
    ensures { OnOk result (Appends (W.contents out.old) (W.contents out.new) (lines_text words lines.now turns.now)) }
{
    let mut left = turns.iter();
    for line in lines {
        let text = line_text(heap, words, line, &mut left)?;
        out.write_all(text.as_bytes())?;
    }
    Ok(())
}

// An `open` with its answer.
fn open_text(heap: Global, words: usize, answer: &str) -> Result<String, AllocError>
    ensures { IfOk result (λ s. string_bytes s ≡ open_text words answer.now) }
{
    format!(in heap; "open {words}: {answer}\n")
}

// Opens a sheet of so many words, makes the calls among the lines on it, and notes each with its answer; or why it is refused.
fn turns_of(
    heap: Global,
    words: usize,
    lines: &[Line],
) -> Result<Result<Vec<Turn<Score>>, Refusal>, AllocError>
    ensures { IfOk result (TurnsOf words lines.now) }
{
    let calls = calls_in(heap, lines)?;
    let blank = Turn {
        call: Call::Begin,
        answer: Answer::Misplaced,
    };
    let mut turns = vec![in heap; blank; calls.len()]?;
    let mut memory = Memory::new(heap)?;
    match memory.run(words, calls.as_slice(), turns.as_mut_slice()) {
        Ok(()) => Ok(Ok(turns)),
        Err(why) => Ok(Err(why)),
    }
}

// Runs the calls behind an `open`, and writes all with their answers.
fn write_sheet<W: Write>(heap: Global, words: usize, lines: &[Line], out: &mut W) -> io::Result<()>
    ensures { OnOk result (Writes (W.contents out.old) (W.contents out.new) (SheetText (opens words) words lines.now)) }
{
    match turns_of(heap, words, lines)? {
        Ok(turns) => {
            let open = open_text(heap, words, "done")?;
            out.write_all(open.as_bytes())?;
            write_lines(heap, words, lines, turns.as_slice(), out)
        }
        Err(why) => {
            let why = refusal_text(heap, why)?;
            let open = open_text(heap, words, why.as_str())?;
            out.write_all(open.as_bytes())?;
            write_lines(heap, words, lines, &[], out)
        }
    }
}

// Runs a part of a script, and writes it with its answers.
fn write_part<W: Write>(
    heap: Global,
    words: Option<usize>,
    lines: &[Line],
    out: &mut W,
) -> io::Result<()>
    ensures { OnOk result (Writes (W.contents out.old) (W.contents out.new) (PartText words lines.now)) }
{
    match words {
        Some(words) => write_sheet(heap, words, lines, out),
        None => write_lines(heap, 0, lines, &[], out),
    }
}

// The line that tells of the first line too many.
fn too_many_text(heap: Global, number: usize) -> Result<String, AllocError>
    ensures { IfOk result (λ s. string_bytes s ≡ too_many_text number) }
{
    format!(in heap; "line {number}: too many lines for one sheet\n")
}

/// Reads a script, and writes each of its lines with its answer, part by part; a reader or a writer that fails, and no memory, end it.
/// A line of more than 65,535 bytes ends it too: the parts that ended before that line are written, and the one that it stands in is not.
/// Of a script that does not end, it reads no more than a part that is too long.
pub fn run_script<R: BufRead + Drop, W: Write>(
    heap: Global,
    input: R,
    out: &mut W,
) -> Result<ScriptEnd, LineError>
    ensures { IfSome (R.remaining input) (λ bytes. ScriptAnswered (lines_in bytes) result (W.contents out.old) (W.contents out.new)) }
{
    let mut script = Script::new(heap);
    for line in lines_of(heap, input) {
        let line = line?;
        if !script.step(heap, line.as_slice(), out)? {
            return Ok(ScriptEnd::TooMany);
        }
    }
    script.finish(heap, out)?;
    Ok(ScriptEnd::Whole)
}

/// A script settles how it ends, and every byte that is written for it.
pub fn laws()
    ensures { OneText }
{
    // the calls settle what they are answered
    run::laws::<Score>();
}

// Runs the script on standard input.
fn run_input(rt: &HostRuntime) -> Result<(), LineError> {
    refuse_arguments(rt, "pentrace < SCRIPT")?;
    let input = BufReader::new(rt.alloc(), rt.stdin())?;
    match run_script(rt.alloc(), input, &mut rt.stdout())? {
        ScriptEnd::Whole => Ok(()),
        ScriptEnd::TooMany => Err(LineError::Io(ErrorKind::FileTooLarge.into())),
    }
}

fn main(rt: HostRuntime) -> io::Result<()> {
    ended(&rt, run_input(&rt))
}

#[cfg(test)]
mod tests;
