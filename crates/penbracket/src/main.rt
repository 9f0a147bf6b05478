// Draws trees in brackets: reads lines of heads, and prints each step for each line.
#![tactic(auto)]

ghost use Rattle.penbracket.specs.Drawing.{DrawingOf};
ghost use Rattle.penbracket.specs.Texts.{TellsDrawing, OneText, heads_text, shown_text, drawn_text, no_list_text, no_tree_text, too_long_text, drawing_text};
ghost use Rattle.console.specs.Answers.{AnswersEach};
ghost use Rattle.console.specs.Lines.{lines_in};
ghost use Rattle.std.specs.Prelude.{◌≡◌, ◌++◌, IfOk, IfSome, string_bytes};

use console::{Answer, LineError, answer_lines, ended, refuse_arguments};
use reading::read_spaced;
use refusal::Refusal;
use std::alloc::{AllocError, Global};
use std::io;
use std::io::{BufRead, BufReader, Write};
use tree::{check_heads, find_cycle, write_brackets};

/// A tree that was drawn: its heads, the word on the root, and its brackets.
#[derive(Drop)]
pub struct Drawing {
    heads: Vec<u8>,
    root: usize,
    brackets: Vec<u8>,
}

/// Why a line of heads is not drawn.
#[derive(Drop)]
pub enum Fault {
    /// the line is no list of numbers
    NoList,
    /// its heads form no single-root tree; with the first word of a cycle, as `find_cycle` tells it
    NoTree(Vec<u8>, Option<usize>),
    /// the brackets of its heads are longer than 160 bytes
    TooLong(Vec<u8>),
}

// Reads the heads of a line, checks them and draws their tree.
fn draw(heap: Global, line: &[u8]) -> Result<Result<Drawing, Fault>, AllocError>
    ensures { IfOk result (λ drawn. DrawingOf line.now drawn) }
{
    let Some(heads) = read_spaced(heap, line)? else {
        return Ok(Err(Fault::NoList));
    };
    let Ok(root) = check_heads(heads.as_slice()) else {
        let cycle = find_cycle(heads.as_slice());
        return Ok(Err(Fault::NoTree(heads, cycle)));
    };
    let mut brackets = vec![in heap; 0; 160]?;
    let Ok(len) = write_brackets(heads.as_slice(), brackets.as_mut_slice()) else {
        return Ok(Err(Fault::TooLong(heads)));
    };
    brackets.truncate(len);
    Ok(Ok(Drawing {
        heads,
        root,
        brackets,
    }))
}

// The heads that were read, and how many words they have.
fn heads_text(heap: Global, line: &[u8], words: usize) -> Result<Vec<u8>, AllocError>
    ensures { IfOk result (λ text. text.items ≡ heads_text line.now words) }
{
    let mut text = Vec::from_slice(heap, b"heads: ")?;
    text.extend_from_slice(line)?;
    let count = format!(in heap; "\nwords: {words}\n")?;
    text.extend_from_slice(count.as_bytes())?;
    Ok(text)
}

// What is told of a tree.
#[tactic(auto, using(std::proofs::Common::append_assoc))]
fn drawn_text(heap: Global, line: &[u8], drawing: &Drawing) -> Result<Vec<u8>, AllocError>
    ensures { IfOk result (λ text. text.items ≡ drawn_text line.now drawing.now) }
{
    let root = drawing.root;
    let mut text = heads_text(heap, line, drawing.heads.len())?;
    let above = format!(in heap; "root: {root}\nbrackets: ")?;
    text.extend_from_slice(above.as_bytes())?;
    text.extend_from_slice(drawing.brackets.as_slice())?;
    text.push(b'\n')?;
    Ok(text)
}

// The line, where it is text; else nothing.
fn shown(line: &[u8]) -> &str
    ensures { result.now ≡ shown_text line.now }
{
    match std::str::from_utf8(line) {
        Ok(text) => text,
        Err(_) => "",
    }
}

// What is told of a line that is no list of heads.
fn no_list_text(heap: Global, line: &[u8]) -> Result<Vec<u8>, AllocError>
    ensures { IfOk result (λ text. text.items ≡ no_list_text line.now) }
{
    let shown = shown(line);
    let why = Refusal::NotATree;
    let text = format!(in heap; "line: {shown}\n{why}: no list of heads\n")?;
    Ok(text.into_bytes())
}

// Why heads form no tree.
fn no_tree_text(heap: Global, cycle: Option<usize>) -> Result<String, AllocError>
    ensures { IfOk result (λ text. string_bytes text ≡ no_tree_text cycle) }
{
    let why = Refusal::NotATree;
    match cycle {
        Some(word) => format!(in heap; "{why}: word {word} lies on a cycle\n"),
        None => format!(in heap; "{why}: no single-root tree of 1 to 40 words\n"),
    }
}

// That the brackets are too long.
fn too_long_text(heap: Global) -> Result<String, AllocError>
    ensures { IfOk result (λ text. string_bytes text ≡ too_long_text) }
{
    let why = Refusal::ShortSpace;
    format!(in heap; "{why}: the brackets are too long\n")
}

// The heads that were read, and why they are not drawn.
fn refused_heads_text(
    heap: Global,
    line: &[u8],
    words: usize,
    why: &str,
) -> Result<Vec<u8>, AllocError>
    ensures { IfOk result (λ text. text.items ≡ heads_text line.now words ++ why.now) }
{
    let mut text = heads_text(heap, line, words)?;
    text.extend_from_slice(why.as_bytes())?;
    Ok(text)
}

// What is told of a line.
fn drawing_text(
    heap: Global,
    line: &[u8],
    drawn: &Result<Drawing, Fault>,
) -> Result<Vec<u8>, AllocError>
    ensures { IfOk result (λ text. text.items ≡ drawing_text line.now drawn.now) }
{
    match drawn {
        Ok(drawing) => drawn_text(heap, line, drawing),
        Err(Fault::NoList) => no_list_text(heap, line),
        Err(Fault::NoTree(heads, cycle)) => {
            let why = no_tree_text(heap, *cycle)?;
            refused_heads_text(heap, line, heads.len(), why.as_str())
        }
        Err(Fault::TooLong(heads)) => {
            let why = too_long_text(heap)?;
            refused_heads_text(heap, line, heads.len(), why.as_str())
        }
    }
}

// Answers a line by its drawing, or why there is none.
#[derive(Drop)]
struct Drawer {
    heap: Global,
}

impl Answer for Drawer {
    ghost answers = { TellsDrawing };

    fn answer(&mut self, line: &[u8]) -> Result<Vec<u8>, AllocError> {
        drawing_text(self.heap, line, &draw(self.heap, line)?)
    }
}

/// A line settles every byte that is told of it.
pub fn laws()
    ensures { OneText }
{
    // it spells one list of bytes only, and a cycle has one first word only
    reading::laws();
    let _ = find_cycle(&[]);
}

/// Draws each line of the input, in order.
pub fn draw_lines<R: BufRead + Drop, W: Write>(
    heap: Global,
    input: R,
    out: &mut W,
) -> Result<(), LineError>
    ensures { IfSome (R.remaining input) (λ bytes. AnswersEach TellsDrawing (lines_in bytes) result (W.contents out.old) (W.contents out.new)) }
{
    answer_lines(heap, input, out, &mut Drawer { heap })
}

// Draws the lines of standard input.
fn draw_input(rt: &HostRuntime) -> Result<(), LineError> {
    refuse_arguments(rt, "penbracket < LINES")?;
    let input = BufReader::new(rt.alloc(), rt.stdin())?;
    draw_lines(rt.alloc(), input, &mut rt.stdout())
}

fn main(rt: HostRuntime) -> io::Result<()> {
    ended(&rt, draw_input(&rt))
}

#[cfg(test)]
mod tests;
