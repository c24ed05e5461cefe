//! The call that runs a command, over sources and sinks that fail. Behind `work` a case is one of named workers. In a text, `$` stands for
//! the line of a cluster, `|` for a newline and `^` for a carriage return.

mod cases;
mod edges;

use golden_lines::Piece::Text;
use golden_lines::{Stop, head_of, say, say_line};
use std::alloc::Global;

fn answer(rt: &HostRuntime, alloc: Global, name: &str, kind: &str, rest: &str) -> Result<(), Stop> {
    match kind {
        "run" => cases::run(rt, alloc, name, rest),
        "wants" => cases::behind_wants(rt, alloc, rest),
        "words" => cases::words(rt, alloc, rest),
        "storm" => cases::storm(rt, alloc, rest),
        "fails" => cases::failing(rt, alloc, name, rest),
        "reads" => cases::each_call(rt, alloc, (name, rest), false),
        "puts" => cases::each_call(rt, alloc, (name, rest), true),
        "writes" => cases::each_write(rt, alloc, (name, rest), false),
        "tells" => cases::each_write(rt, alloc, (name, rest), true),
        _ => say(rt, &[Text("no such case")]),
    }
}

/// Prints what came of a case.
pub fn answer_line(rt: &HostRuntime, alloc: Global, line: &str) -> Result<(), Stop> {
    if line.starts_with('#') {
        return say_line(rt, &[Text(line)]);
    }
    let (head, rest) = head_of(line);
    if head == "work" {
        let (kind, rest) = head_of(rest);
        answer(rt, alloc, head, kind, rest)?;
    } else {
        answer(rt, alloc, "replay", head, rest)?;
    }
    say_line(rt, &[])
}
