//! Quantities, jobs, clusters, lines and streams. In an argument that is text, `|` stands for a newline, `^` for a carriage return
//! and `~` for the byte 255.

mod clusters;
mod events;
mod jobs;
mod reading;
mod vectors;
mod writing;

use golden_lines::Piece::Text;
use golden_lines::{Stop, head_of, say_line};
use std::alloc::Global;

fn answer(rt: &HostRuntime, alloc: Global, call: &str, rest: &str) -> Result<(), Stop> {
    match call {
        "number" => jobs::number(rt, rest),
        "decimal" => jobs::decimal(rt, alloc, rest),
        "job" => jobs::job(rt, alloc, rest),
        "cluster" => clusters::cluster(rt, alloc, rest),
        "event" => events::event(rt, alloc, rest),
        "lines" => reading::lines(rt, alloc, rest),
        "bytes" => reading::byte_by_byte(rt, alloc, rest),
        "long" => reading::repeated(rt, alloc, b'a', rest),
        "many" => reading::repeated(rt, alloc, b'\n', rest),
        "write" => writing::write(rt, alloc, rest),
        "adapters" => writing::adapters(rt, alloc, rest),
        _ => vectors::vectors(rt, alloc, call, rest),
    }
}

/// Prints what a line answers.
pub fn answer_line(rt: &HostRuntime, alloc: Global, line: &str) -> Result<(), Stop> {
    if line.starts_with('#') {
        return say_line(rt, &[Text(line)]);
    }
    let (call, rest) = head_of(line);
    answer(rt, alloc, call, rest)
}
