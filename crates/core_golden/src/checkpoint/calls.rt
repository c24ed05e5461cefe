//! Writing calls on a place.

use crate::checkpoint::call::{Call, call_of, job_of};
use crate::checkpoint::place::{Place, ROOM};
use crate::checkpoint::telling::{tell, tell_fault};
use golden_lines::Piece::{Number, Text};
use golden_lines::{Stop, put_numbers, say, say_line};
use std::alloc::Global;

/// What is done with a call.
#[derive(Clone, Copy)]
pub enum Way {
    /// It is made.
    Once,
    /// It is made on copies of the disk, each of which serves so many writes and syncs, and what is left is opened.
    Halted,
}

/// Opens the disk of a place and prints what it stands for.
pub fn opened(rt: &HostRuntime, alloc: Global, place: &mut Place) -> Result<(), Stop> {
    if let Err(fault) = place.open(alloc) {
        return tell_fault(rt, fault);
    }
    match place.hard() {
        Some(hard) => tell(rt, hard),
        None => Ok(()),
    }
}

fn called(rt: &HostRuntime, place: &mut Place, call: &Call) -> Result<(), Stop> {
    match place.call(call) {
        Some(Ok(())) => say_line(rt, &[Text("done")]),
        Some(Err(fault)) => tell_fault(rt, fault),
        None => say_line(rt, &[Text("not open")]),
    }
}

// Opens what a crash leaves of a place.
fn opened_image(rt: &HostRuntime, alloc: Global, place: &Place, all: bool) -> Result<(), Stop> {
    let mut image = place.image(alloc, all, ROOM)?;
    opened(rt, alloc, &mut image)
}

// Makes the call on a place that serves so many writes and syncs, and opens what a crash then leaves.
fn halted(
    rt: &HostRuntime,
    alloc: Global,
    place: &mut Place,
    call: &Call,
    calls: u64,
) -> Result<(), Stop> {
    place.stop_after(calls);
    if place.call(call).is_some() {
        say(
            rt,
            &[Text("after "), Number(calls as u64), Text(", synced: ")],
        )?;
        opened_image(rt, alloc, place, false)?;
        say(rt, &[Text("after "), Number(calls as u64), Text(", all: ")])?;
        opened_image(rt, alloc, place, true)?;
    }
    Ok(())
}

// The same on a copy of the disk.
fn halted_copy(
    rt: &HostRuntime,
    alloc: Global,
    place: &Place,
    call: &Call,
    calls: u64,
) -> Result<(), Stop> {
    let mut copy = place.image(alloc, true, ROOM)?;
    // Where it does not open, no call is made.
    let _refused = copy.open(alloc).is_err();
    halted(rt, alloc, &mut copy, call, calls)
}

fn done(
    rt: &HostRuntime,
    alloc: Global,
    place: &mut Place,
    call: &Call,
    way: Way,
) -> Result<(), Stop> {
    match way {
        Way::Once => called(rt, place, call),
        Way::Halted => {
            for calls in 0..5 {
                halted_copy(rt, alloc, place, call, calls)?;
            }
            Ok(())
        }
    }
}

// A job with a fault is no call.
fn submitted(
    rt: &HostRuntime,
    alloc: Global,
    place: &mut Place,
    ([epoch, app, group], units): ([u64; 3], &str),
    way: Way,
) -> Result<(), Stop> {
    match job_of(alloc, app, group, units) {
        Ok(job) => done(rt, alloc, place, &Call::Submit(epoch, &job), way),
        Err(fault) => Ok(println!(rt; "{fault}")?),
    }
}

/// Does with the call that words name what is asked: the epoch, a number, and of a job its group and its units behind `:`.
pub fn answer(
    rt: &HostRuntime,
    alloc: Global,
    place: &mut Place,
    (word, rest): (&str, &str),
    way: Way,
) -> Result<(), Stop> {
    let (head, units) = rest.split_once(':').unwrap_or((rest, ""));
    let mut numbers = [u64::MAX; 3];
    put_numbers(&mut numbers, head);
    if word == "submit" {
        return submitted(rt, alloc, place, (numbers, units), way);
    }
    match call_of(word, numbers[0], numbers[1]) {
        Some(call) => done(rt, alloc, place, &call, way),
        None => say_line(rt, &[Text("?")]),
    }
}

/// Raises the fence step by step up to this epoch, or to the first refusal.
pub fn raised(rt: &HostRuntime, place: &mut Place, last: u64) -> Result<(), Stop> {
    for epoch in 1..last.saturating_add(1) {
        match place.call(&Call::Raise(epoch)) {
            Some(Ok(())) => {}
            Some(Err(fault)) => {
                say_line(rt, &[Text("at "), Number(epoch)])?;
                return tell_fault(rt, fault);
            }
            None => return Ok(()),
        }
    }
    say_line(rt, &[Text("done")])?;
    Ok(())
}
