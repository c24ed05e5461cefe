//! Worked cases of the call that runs a command. Each line of the input is a case, and what came of it is printed; a line `== nodes` says
//! that those behind it are of nodes and leases.
#![tactic(auto)]

mod commands;
mod nodes;

use golden_lines::Piece::Text;
use golden_lines::{Cases, Stop, answer_input, say_line};
use std::alloc::Global;
use std::process::ExitCode;

// Whether the cases are of nodes and leases now.
#[derive(Drop)]
struct Worked {
    of_nodes: bool,
}

impl Cases for Worked {
    fn start(_alloc: Global) -> Result<Worked, Stop> {
        Ok(Worked { of_nodes: false })
    }

    fn answer_line(&mut self, rt: &HostRuntime, alloc: Global, line: &str) -> Result<(), Stop> {
        if line == "== nodes" {
            self.of_nodes = true;
            return say_line(rt, &[Text(line)]);
        }
        if self.of_nodes {
            return nodes::answer_line(rt, alloc, line);
        }
        commands::answer_line(rt, alloc, line)
    }
}

fn main(rt: HostRuntime) -> ExitCode {
    answer_input::<Worked>(&rt)
}
