//! Nodes and leases, over doors, disks, sources and sinks that fail. An empty line and one that begins with `#` are printed as they are.

mod frames;
mod running;
mod settings;
mod watched;

use golden_lines::Piece::Text;
use golden_lines::{Stop, say_line};
use std::alloc::Global;

fn answer(rt: &HostRuntime, alloc: Global, head: &str, text: &str) -> Result<(), Stop> {
    let words: Vec<&str> = head.split_whitespace().collect(alloc)?;
    match words.as_slice() {
        ["each", what, rest @ ..] => running::each(rt, alloc, what, rest, text),
        ["stops", rest @ ..] => running::stops(rt, alloc, rest, text),
        rest => running::once(rt, alloc, rest, text),
    }
}

/// Prints what came of a case.
pub fn answer_line(rt: &HostRuntime, alloc: Global, line: &str) -> Result<(), Stop> {
    if line.is_empty() || line.starts_with('#') {
        return say_line(rt, &[Text(line)]);
    }
    let (head, text) = line.split_once(" : ").unwrap_or((line, ""));
    answer(rt, alloc, head, text)
}
