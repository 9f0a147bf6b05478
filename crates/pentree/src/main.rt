// Finds the heaviest tree of a line with scores: reads lines of numbers, and prints each step.
// A line is the number of words, then head, dependent and score of each arc.
#![tactic(auto)]

ghost use Rattle.pentree.specs.Texts.{arc_text, puts_text, head_lines, BracketsOf, TreeText, AnswerText, PutsHeld, TellsHeld, OpenedText, memory_lengths, TellsLine, OneText};
ghost use Rattle.refusal.specs.Refusals.{refused_text};
ghost use Rattle.search.specs.Answer.{LineOfWords};
ghost use Rattle.sheet.specs.Calls.{open_check};
ghost use Rattle.console.specs.Answers.{AnswersEach};
ghost use Rattle.console.specs.Lines.{lines_in};
ghost use Rattle.std.specs.Prelude.{◌≡◌, ◌<◌, ℕ, ◌++◌, [], ◌∷◌, length, take, IfOk, IfSome, string_bytes};

use console::{Answer, LineError, answer_lines, ended, refuse_arguments};
use desk::Memory;
use reading::read_spaced;
use refusal::Refusal;
use sheet::Sheet;
use std::alloc::{AllocError, Global};
use std::io;
use std::io::{BufRead, BufReader, Write};
use tree::write_brackets;
use weight::Score;

// An arc, and why it is refused, if it is.
fn arc_text(
    heap: Global,
    head: u8,
    dependent: u8,
    score: u8,
    answer: Result<(), Refusal>,
) -> Result<String, AllocError>
    ensures { IfOk result (λ text. string_bytes text ≡ arc_text head dependent score answer) }
{
    match answer {
        Ok(()) => format!(in heap; "arc {head} to {dependent}: {score}\n"),
        Err(refusal) => format!(in heap; "arc {head} to {dependent}: {score}\n{refusal}\n"),
    }
}

// What is told of the numbers behind the last whole arc.
fn rest_text(rest: &[u8]) -> &'static [u8]
    requires { length rest.now < 3 }
    ensures { (words : ℕ) → result.now ≡ puts_text words rest.now }
{
    if rest.is_empty() {
        return b"";
    }
    b"no whole arc at the end\n"
}

// Puts the arcs of a line on the sheet, and tells each.
#[tactic(auto, using(std::proofs::Common::append_assoc))]
fn puts_text(
    heap: Global,
    sheet: &Sheet<Score>,
    arcs: &[u8],
    memory: &mut Memory<Score>,
) -> Result<Vec<u8>, AllocError>
    ensures told { IfOk result (λ text. text.items ≡ puts_text sheet.now.words arcs.now) }
    ensures law { IfOk result (λ text. PutsHeld sheet.now.words arcs.now memory.old.weights.items memory.new.weights.items memory.old.sets.items memory.new.sets.items) }
{
    let mut text = Vec::new(heap);
    let mut rest = arcs;
    while let [head, dependent, score, more @ ..] = rest {
        let weight = Score::new(i64::from(*score));
        let answer = memory.put(sheet, usize::from(*head), usize::from(*dependent), weight);
        let told = arc_text(heap, *head, *dependent, *score, answer)?;
        text.extend_from_slice(told.as_bytes())?;
        rest = more;
    }
    text.extend_from_slice(rest_text(rest))?;
    Ok(text)
}

// The heads, a line each.
#[tactic(auto, using(std::proofs::Common::append_assoc))]
fn head_lines(heap: Global, heads: &[u8]) -> Result<Vec<u8>, AllocError>
    ensures { IfOk result (λ text. text.items ≡ head_lines 1 heads.now) }
{
    let mut text = Vec::new(heap);
    let mut rest = heads;
    let mut word = 1usize;
    while let [head, more @ ..] = rest {
        let line = format!(in heap; "head of {word}: {head}\n")?;
        text.extend_from_slice(line.as_bytes())?;
        rest = more;
        word += 1;
    }
    Ok(text)
}

// The brackets of the tree, where they fit 160 bytes.
fn brackets_of(heap: Global, heads: &[u8]) -> Result<Vec<u8>, AllocError>
    ensures { IfOk result (λ text. BracketsOf heads.now text.items) }
{
    let mut space = vec![in heap; 0; 160]?;
    let long = write_brackets(heads, space.as_mut_slice()).unwrap_or(0);
    space.truncate(long);
    Ok(space)
}

// The tree that was found.
#[tactic(auto, using(std::proofs::Common::append_assoc))]
fn told_tree(heap: Global, weight: Score, heads: &[u8]) -> Result<Vec<u8>, AllocError>
    ensures { IfOk result (λ text. TreeText weight heads.now text.items) }
{
    let value = weight.value();
    let mut text = format!(in heap; "weight: {value}\n")?.into_bytes();
    text.extend_from_slice(head_lines(heap, heads)?.as_slice())?;
    text.extend_from_slice(b"brackets: ")?;
    text.extend_from_slice(brackets_of(heap, heads)?.as_slice())?;
    text.push(b'\n')?;
    Ok(text)
}

// A refusal on a line.
fn refusal_line(heap: Global, refusal: Refusal) -> Result<Vec<u8>, AllocError>
    ensures { IfOk result (λ text. text.items ≡ refused_text refusal ++ 10 ∷ []) }
{
    Ok(format!(in heap; "{refusal}\n")?.into_bytes())
}

// What a search found.
fn answer_text(
    heap: Global,
    words: usize,
    heads: &[u8; 40],
    found: Option<Score>,
) -> Result<Vec<u8>, AllocError>
    ensures { IfOk result (λ text. AnswerText found (take words heads.now) text.items) }
{
    match found {
        None => Vec::from_slice(heap, b"no tree\n"),
        Some(weight) => told_tree(heap, weight, heads.get(..words).unwrap_or(heads)),
    }
}

// Searches the arcs that stand, and tells what was found.
fn found_text(heap: Global, words: usize, memory: &mut Memory<Score>) -> Result<Vec<u8>, AllocError>
    requires { LineOfWords words }
    ensures { IfOk result (λ text. TellsHeld words memory.old.weights.items memory.old.sets.items text.items) }
{
    let mut heads = [0; 40];
    match memory.search(words, &[], &mut heads) {
        Err(refusal) => refusal_line(heap, refusal),
        Ok(found) => answer_text(heap, words, &heads, found),
    }
}

// Opens a sheet for one line, puts its arcs, and searches.
#[tactic(auto, using(std::proofs::Common::append_assoc))]
fn search_text(
    heap: Global,
    words: usize,
    arcs: &[u8],
    memory: &mut Memory<Score>,
) -> Result<Vec<u8>, AllocError>
    ensures { IfOk result (λ text. OpenedText words arcs.now (open_check words memory_lengths) text.items) }
{
    let mut text = format!(in heap; "words: {words}\n")?.into_bytes();
    let sheet = match memory.open(words) {
        Ok(sheet) => sheet,
        Err(refusal) => {
            text.extend_from_slice(refusal_line(heap, refusal)?.as_slice())?;
            return Ok(text);
        }
    };
    let puts = puts_text(heap, &sheet, arcs, memory)?;
    text.extend_from_slice(puts.as_slice())?;
    let found = found_text(heap, words, memory)?;
    text.extend_from_slice(found.as_slice())?;
    Ok(text)
}

// Answers a line of numbers by what a search of its arcs finds.
#[derive(Drop)]
struct Searcher {
    heap: Global,
    memory: Memory<Score>,
}

impl Answer for Searcher {
    ghost answers = { TellsLine };

    fn answer(&mut self, line: &[u8]) -> Result<Vec<u8>, AllocError> {
        match read_spaced(self.heap, line)? {
            None => Vec::from_slice(self.heap, b"no list of numbers\n"),
            Some(numbers) => {
                // a list has a number at least
                let [words, arcs @ ..] = numbers.as_slice() else {
                    return Ok(Vec::new(self.heap));
                };
                search_text(self.heap, usize::from(*words), arcs, &mut self.memory)
            }
        }
    }
}

/// Searches each line of the input, in order.
pub fn search_lines<R: BufRead + Drop, W: Write>(
    heap: Global,
    input: R,
    out: &mut W,
) -> Result<(), LineError>
    ensures { IfSome (R.remaining input) (λ bytes. AnswersEach TellsLine (lines_in bytes) result (W.contents out.old) (W.contents out.new)) }
{
    let memory = Memory::new(heap)?;
    answer_lines(heap, input, out, &mut Searcher { heap, memory })
}

/// A line settles every byte that is written for it.
pub fn laws()
    ensures { OneText }
{
    // it spells one list of bytes only, and a search of the same arcs finds one tree only
    reading::laws();
    search::laws::<Score>();
}

// Searches the lines of standard input.
fn search_input(rt: &HostRuntime) -> Result<(), LineError> {
    refuse_arguments(rt, "pentree < LINES")?;
    let input = BufReader::new(rt.alloc(), rt.stdin())?;
    search_lines(rt.alloc(), input, &mut rt.stdout())
}

fn main(rt: HostRuntime) -> io::Result<()> {
    ended(&rt, search_input(&rt))
}

#[cfg(test)]
mod tests;
