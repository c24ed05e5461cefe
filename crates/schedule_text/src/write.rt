//! Event lines are written.

ghost use Rattle.std.specs.Prelude.{◌≡◌, ◌<◌, ◌≤◌, ◌++◌, ◌∷◌, [], map, length, take, OnOk, OnErr, decimal, codes, Ok};
ghost use Rattle.std.specs.List.{flat_map};
ghost use Rattle.schedule_text.specs.LineForms.{shape_of};
ghost use Rattle.schedule_text.specs.Halting.{anywhere};
ghost use Rattle.schedule_text.specs.ReadEvents.{event_of};
ghost use Rattle.schedule_text.specs.Writing.{says, saying_of, saying_words, halt_words, most_words, ask_words, asks_words, blanked, spaced, event_text, Begins, IsLineEvent};
ghost use Rattle.schedule_text.specs.declared.event.Event.{Event as AnyEvent};

use crate::event::Event;
use crate::form::{Head, form_of};
use fuxi_terms::OutOfMemory;
use fuxi_terms::limits::GREATEST_COUNT;
use schedule_unit::{Ask, law, write_number};

/// Appends the line of an event, without a newline. Leaves `out` as it was where memory was refused.
///
/// `read_event` gives the event back, where a line can give it at all (`event_lines`).
pub fn write_event(event: &Event, out: &mut Vec<u8>) -> Result<(), OutOfMemory>
    ensures ok { OnOk result (out.new.items ≡ out.old.items ++ event_text event.now) }
    ensures err { OnErr result (out.new.items ≡ out.old.items) }
{
    let length = out.len();
    match push_event(event, out) {
        Ok(()) => Ok(()),
        Err(refusal) => {
            out.truncate(length);
            Err(refusal)
        }
    }
}

fn push_event(event: &Event, out: &mut Vec<u8>) -> Result<(), OutOfMemory>
    ensures ok { OnOk result (out.new.items ≡ out.old.items ++ event_text event.now) }
    ensures err { OnErr result (Begins out.old.items out.new.items) }
{
    match event {
        Event::Master(epoch) => push_line(out, Head::Master, &[*epoch]),
        Event::Stop(epoch) => push_line(out, Head::Stop, &[*epoch]),
        Event::Agent(machine, boot) => push_line(out, Head::Agent, &[machine.0 as u64, *boot]),
        Event::App(app, boot) => push_line(out, Head::App, &[app.0 as u64, *boot]),
        Event::Submit(epoch, app, group, asks) => {
            push_line(out, Head::Submit, &[*epoch, app.0 as u64, group.0 as u64])?;
            push_asks(out, asks.as_slice())
        }
        Event::Finish(epoch, app) => push_line(out, Head::Finish, &[*epoch, app.0 as u64]),
        Event::Ban(epoch, machine) => push_line(out, Head::Ban, &[*epoch, machine.0 as u64]),
        Event::Unban(epoch, machine) => push_line(out, Head::Unban, &[*epoch, machine.0 as u64]),
        Event::Begin(epoch) => push_line(out, Head::Begin, &[*epoch]),
        Event::Preempt(epoch) => push_line(out, Head::Preempt, &[*epoch]),
        Event::Judge(epoch, least, percent) => {
            push_line(out, Head::Judge, &[*epoch, *least as u64, *percent as u64])
        }
        Event::Want(app, unit, count) => {
            push_line(out, Head::Want, &[app.0 as u64, unit.0 as u64, *count])
        }
        Event::Near(app, unit, machine, count) => push_line(
            out,
            Head::Near,
            &[app.0 as u64, unit.0 as u64, machine.0 as u64, *count],
        ),
        Event::Rack(app, unit, rack, count) => push_line(
            out,
            Head::Rack,
            &[app.0 as u64, unit.0 as u64, rack.0 as u64, *count],
        ),
        Event::Avoid(app, unit, machine, on) => push_line(
            out,
            Head::Avoid,
            &[app.0 as u64, unit.0 as u64, machine.0 as u64, *on as u64],
        ),
        Event::Back(app, unit, machine, count) => push_line(
            out,
            Head::Back,
            &[app.0 as u64, unit.0 as u64, machine.0 as u64, *count],
        ),
        Event::TurnMaster(epoch) => push_line(out, Head::TurnMaster, &[*epoch]),
        Event::TurnAgent(machine) => push_line(out, Head::TurnAgent, &[machine.0 as u64]),
        Event::TurnApp(app) => push_line(out, Head::TurnApp, &[app.0 as u64]),
        Event::ResyncMaster(epoch) => push_line(out, Head::ResyncMaster, &[*epoch]),
        Event::ResyncAgent(machine) => push_line(out, Head::ResyncAgent, &[machine.0 as u64]),
        Event::ResyncApp(app) => push_line(out, Head::ResyncApp, &[app.0 as u64]),
        Event::Deliver(packet) => push_line(out, Head::Deliver, &[*packet]),
        Event::DeliverRange(first, last) => push_line(out, Head::DeliverRange, &[*first, *last]),
        Event::Dump(packet) => push_line(out, Head::Dump, &[*packet]),
        Event::Show => push_line(out, Head::Show, &[]),
        Event::Halt(calls, all, line) => {
            push_halt(out, *calls, *all)?;
            push_event(line, out)
        }
    }
}

// What stands before the line within a stop of a writing, and a blank.
fn push_halt(out: &mut Vec<u8>, calls: u8, all: bool) -> Result<(), OutOfMemory>
    ensures ok { OnOk result (out.new.items ≡ out.old.items ++ (spaced (halt_words calls all) ++ 32 ∷ [])) }
    ensures err { OnErr result (Begins out.old.items out.new.items) }
{
    out.extend_from_slice(b"halt")?;
    push_numbers(out, &[calls as u64, all as u64])?;
    Ok(out.push(b' ')?)
}

// The first words and the numbers of a line.
fn push_line(out: &mut Vec<u8>, head: Head, numbers: &[u64]) -> Result<(), OutOfMemory>
    ensures ok { OnOk result (out.new.items ≡ out.old.items ++ spaced (saying_words (says head numbers.now))) }
    ensures err { OnErr result (Begins out.old.items out.new.items) }
{
    push_head(out, head)?;
    push_numbers(out, numbers)
}

fn push_head(out: &mut Vec<u8>, head: Head) -> Result<(), OutOfMemory>
    ensures ok { OnOk result (out.new.items ≡ out.old.items ++ spaced (shape_of head).words) }
    ensures err { OnErr result (Begins out.old.items out.new.items) }
{
    match form_of(head).words {
        [] => Ok(()),
        [first, others @ ..] => {
            out.extend_from_slice(first)?;
            match push_words(out, others) {
                Ok(()) => Ok(()),
                Err(refusal) => Err(refusal),
            }
        }
    }
}

/// Appends a word with a blank before it.
pub fn push_blanked(out: &mut Vec<u8>, word: &[u8]) -> Result<(), OutOfMemory>
    ensures ok { OnOk result (out.new.items ≡ out.old.items ++ blanked (word.now ∷ [])) }
    ensures err { OnErr result (Begins out.old.items out.new.items) }
{
    out.push(b' ')?;
    out.extend_from_slice(word)?;
    Ok(())
}

// Each of these words, with a blank before it.
fn push_words(out: &mut Vec<u8>, words: &[&[u8]]) -> Result<(), OutOfMemory>
    ensures ok { OnOk result (out.new.items ≡ out.old.items ++ blanked (map (λ w. w.now) words.now)) }
    ensures err { OnErr result (Begins out.old.items out.new.items) }
{
    for word in words {
        out.push(b' ')?;
        out.extend_from_slice(word)?;
    }
    Ok(())
}

/// Appends each of these numbers, with a blank before it.
pub fn push_numbers(out: &mut Vec<u8>, numbers: &[u64]) -> Result<(), OutOfMemory>
    ensures ok { OnOk result (out.new.items ≡ out.old.items ++ blanked (map decimal numbers.now)) }
    ensures err { OnErr result (Begins out.old.items out.new.items) }
{
    for number in numbers {
        out.push(b' ')?;
        write_number(*number, out)?;
    }
    Ok(())
}

// Units, with a slash between two of them.
fn push_asks(out: &mut Vec<u8>, asks: &[Ask]) -> Result<(), OutOfMemory>
    ensures ok { OnOk result (out.new.items ≡ out.old.items ++ blanked (asks_words asks.now)) }
    ensures err { OnErr result (Begins out.old.items out.new.items) }
{
    match asks {
        [] => Ok(()),
        [first, others @ ..] => {
            push_ask(out, first)?;
            push_more_asks(out, others)
        }
    }
}

fn push_more_asks(out: &mut Vec<u8>, asks: &[Ask]) -> Result<(), OutOfMemory>
    ensures ok { OnOk result (out.new.items ≡ out.old.items ++ blanked (flat_map (λ b. codes "/" ∷ ask_words b) asks.now)) }
    ensures err { OnErr result (Begins out.old.items out.new.items) }
{
    for ask in asks {
        out.extend_from_slice(b" /")?;
        match push_ask(out, ask) {
            Ok(()) => {}
            Err(refusal) => return Err(refusal),
        }
    }
    Ok(())
}

fn push_ask(out: &mut Vec<u8>, ask: &Ask) -> Result<(), OutOfMemory>
    ensures ok { OnOk result (out.new.items ≡ out.old.items ++ blanked (ask_words ask.now)) }
    ensures err { OnErr result (Begins out.old.items out.new.items) }
{
    push_numbers(out, &[ask.priority])?;
    push_numbers(out, ask.quantities.as_slice())?;
    push_most(out, ask.most)
}

// The bound of a unit, where its number is not the greatest.
fn push_most(out: &mut Vec<u8>, most: u64) -> Result<(), OutOfMemory>
    ensures ok { OnOk result (out.new.items ≡ out.old.items ++ blanked (most_words most)) }
    ensures err { OnErr result (Begins out.old.items out.new.items) }
{
    if most == GREATEST_COUNT {
        return Ok(());
    }
    push_blanked(out, b"most")?;
    push_numbers(out, &[most])
}

/// Each event that a line can give is read back from its line, wherever it stands in memory.
pub fn event_lines()
    ensures { (event : AnyEvent) → IsLineEvent event → event_of (event_text event) ≡ Ok (anywhere event) }
{
    law::numbers();
}
