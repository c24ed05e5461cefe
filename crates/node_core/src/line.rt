//! The lines of a node.

ghost use Rattle.std.specs.Prelude.{◌≡◌, IfOk, IfErr, Ok, Err, map};
ghost use Rattle.schedule_text.specs.Words.{words_of};
ghost use Rattle.schedule_text.specs.ReadEvents.{IsFault};
ghost use Rattle.node_core.specs.NodeLines.{node_line, line_anywhere, begins_with, alone, HasLineEvent};

use fuxi_terms::OutOfMemory;
use schedule_text::{Event, LineFault, read_event};
use std::alloc::Global;

/// What a line of a node says.
#[derive(Drop)]
pub enum NodeLine {
    /// Dial the peer, send and hear.
    Round,
    /// Accept a peer, hear and answer.
    Serve,
    /// Print the state.
    Show,
    /// Any other event, as in a schedule.
    Event(Event),
}

// The words of a line, which blanks separate.
fn words_of(alloc: Global, line: &[u8]) -> Result<Vec<&[u8]>, OutOfMemory>
    ensures { IfOk result (λ words. map (λ w. w.now) words.items ≡ words_of line.now) }
{
    Ok(
        line.split(|byte| *byte == b' ')
            .filter(|word| !word.is_empty())
            .collect(alloc)?,
    )
}

// Whether the first of these words is this one.
fn begins_with(word: &[u8], words: &[&[u8]]) -> bool
    ensures { result ≡ begins_with word.now (map (λ w. w.now) words.now) }
{
    match words.first() {
        Some(first) => *first == word,
        None => false,
    }
}

/// What a line says, which has no newline: `round`, `serve` or `show` alone, or another event. The first test that fails decides, as in a
/// schedule. `OutOfMemory` may come in place of any answer.
pub fn read_line(alloc: Global, line: &[u8]) -> Result<NodeLine, LineFault>
    ensures ok { IfOk result (λ said. node_line line.now ≡ Ok (line_anywhere said)) }
    ensures line { IfOk result HasLineEvent }
    ensures fault { IfErr result (IsFault (node_line line.now)) }
{
    let words = words_of(alloc, line)?;
    let words = words.as_slice();
    if begins_with(b"round", words) {
        return alone(NodeLine::Round, words);
    }
    if begins_with(b"serve", words) {
        return alone(NodeLine::Serve, words);
    }
    if begins_with(b"show", words) {
        return alone(NodeLine::Show, words);
    }
    match read_event(alloc, line) {
        Ok(event) => Ok(NodeLine::Event(event)),
        Err(fault) => Err(fault),
    }
}

// The line, where it is one word.
fn alone(line: NodeLine, words: &[&[u8]]) -> Result<NodeLine, LineFault>
    ensures { result ≡ alone line (map (λ w. w.now) words.now) }
{
    if words.len() == 1 {
        Ok(line)
    } else {
        Err(LineFault::WrongCount)
    }
}
