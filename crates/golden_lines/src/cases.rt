//! A table of cases, line by line.

use crate::stop::Stop;
use std::alloc::Global;
use std::io::{BufRead, BufReader};
use std::process::ExitCode;

/// What answers the lines of a table, and what it keeps from one line to the next.
pub trait Cases: Sized + Drop {
    /// What it is before the first line.
    fn start(alloc: Global) -> Result<Self, Stop>;

    /// Prints what a line answers.
    fn answer_line(&mut self, rt: &HostRuntime, alloc: Global, line: &str) -> Result<(), Stop>;
}

fn answer_lines<C: Cases>(rt: &HostRuntime) -> Result<(), Stop> {
    let alloc = rt.alloc();
    let mut cases = C::start(alloc)?;
    for line in BufReader::new(alloc, rt.reader())?.lines(alloc) {
        cases.answer_line(rt, alloc, &line?)?;
    }
    Ok(())
}

/// Prints what each line of the input answers, and tells whether the program came to the end.
pub fn answer_input<C: Cases>(rt: &HostRuntime) -> ExitCode {
    match answer_lines::<C>(rt) {
        Ok(()) => ExitCode::SUCCESS,
        Err(_) => ExitCode::FAILURE,
    }
}
