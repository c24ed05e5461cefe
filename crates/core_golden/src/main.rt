//! Worked cases of the crates below the masters. A line `== NAME` says which calls the lines behind it name; each of them names a call
//! with its arguments, and the answer is printed.
#![tactic(auto)]

mod base;
mod channels;
mod checkpoint;
mod trees;

use channels::Channels;
use checkpoint::Place;
use golden_lines::Piece::Text;
use golden_lines::{Cases, Stop, answer_input, say_line};
use std::alloc::Global;
use std::process::ExitCode;
use trees::Made;

// Whose calls the lines name.
#[derive(Clone, Copy)]
enum Part {
    Base,
    Channels,
    Checkpoint,
    Trees,
}

// What the lines of each part keep.
#[derive(Drop)]
struct Core {
    part: Part,
    channels: Channels,
    place: Place,
    made: Made,
}

fn part_of(name: &str) -> Part {
    match name {
        "channels" => Part::Channels,
        "checkpoint" => Part::Checkpoint,
        "trees" => Part::Trees,
        _ => Part::Base,
    }
}

impl Cases for Core {
    fn start(alloc: Global) -> Result<Core, Stop> {
        Ok(Core {
            part: Part::Base,
            channels: Channels::start(alloc)?,
            place: Place::start(alloc)?,
            made: Made::start(alloc)?,
        })
    }

    fn answer_line(&mut self, rt: &HostRuntime, alloc: Global, line: &str) -> Result<(), Stop> {
        if let Some(name) = line.strip_prefix("== ") {
            self.part = part_of(name);
            return say_line(rt, &[Text(line)]);
        }
        match self.part {
            Part::Base => base::answer_line(rt, alloc, line),
            Part::Channels => self.channels.answer_line(rt, alloc, line),
            Part::Checkpoint => self.place.answer_line(rt, alloc, line),
            Part::Trees => self.made.answer_line(rt, alloc, line),
        }
    }
}

fn main(rt: HostRuntime) -> ExitCode {
    answer_input::<Core>(&rt)
}
