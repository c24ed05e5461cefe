use golden_lines::Piece::{Number, Text};
use golden_lines::{Stop, push_text, say_line, text_of};
use schedule_text::{Event, LineFault, read_event, write_event};
use std::alloc::Global;

fn tell_fault(rt: &HostRuntime, fault: LineFault) -> Result<(), Stop> {
    match fault {
        LineFault::UnknownWord => say_line(rt, &[Text("UnknownWord")])?,
        LineFault::WrongCount => say_line(rt, &[Text("WrongCount")])?,
        LineFault::BadNumber(place) => say_line(rt, &[Text("BadNumber "), Number(place as u64)])?,
        LineFault::Range(place) => say_line(rt, &[Text("Range "), Number(place as u64)])?,
        LineFault::OutOfMemory => return Err(Stop::OutOfMemory),
    }
    Ok(())
}

// Prints an event as it is written.
fn tell(rt: &HostRuntime, alloc: Global, event: &Event) -> Result<(), Stop> {
    let mut bytes = Vec::new(alloc);
    match write_event(event, &mut bytes) {
        Ok(()) => say_line(rt, &[Text(&text_of(alloc, &bytes)?)]),
        Err(_) => Err(Stop::OutOfMemory),
    }
}

/// Prints the event of a line, or the line's fault.
pub fn event(rt: &HostRuntime, alloc: Global, line: &str) -> Result<(), Stop> {
    let mut bytes = Vec::new(alloc);
    push_text(&mut bytes, line)?;
    match read_event(alloc, &bytes) {
        Ok(event) => tell(rt, alloc, &event),
        Err(fault) => tell_fault(rt, fault),
    }
}
