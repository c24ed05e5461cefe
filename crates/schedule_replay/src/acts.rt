//! What each event does.

ghost use Rattle.std.specs.Prelude.{◌<◌};
ghost use Rattle.schedule_text.specs.Writing.{IsLineEvent};
ghost use Rattle.spec_world.specs.Events.{act};
ghost use Rattle.schedule_replay.specs.LineEvents.{event_as};
ghost use Rattle.schedule_replay.specs.Moves.{Acts, CanMove, CanMoveLong};

use crate::agents::start_agent;
use crate::apps::start_app;
use crate::deliveries::{deliver, deliver_range, dump};
use crate::halts::Stop;
use crate::masters::{halt, judge, start_master, stop_master};
use crate::orders::carry_out;
use crate::running::Running;
use crate::showing::show;
use crate::stop::WorldStop;
use party_commands::command_of;
use schedule_text::Event;
use std::alloc::Global;

// An event.
pub(crate) fn act(
    running: &mut Running,
    alloc: Global,
    event: &Event,
    out: &mut Vec<u8>,
) -> Result<(), WorldStop>
    requires line { IsLineEvent event.now }
    requires can { CanMove running.old }
    requires long { CanMoveLong running.old }
    requires counted { 0 < running.old.events }
    ensures { Acts (λ w. act w (event_as event.now)) running.old running.new out.old.items out.new.items result }
{
    if let Some(order) = command_of(event) {
        return carry_out(running, alloc, &order, out);
    }
    match event {
        Event::Master(epoch) => start_master(running, alloc, *epoch, out),
        Event::Stop(epoch) => stop_master(running, *epoch, out),
        Event::Agent(machine, boot) => start_agent(running, alloc, *machine, *boot, out),
        Event::App(app, boot) => start_app(running, alloc, *app, *boot, out),
        Event::Judge(epoch, least, percent) => {
            judge(running, alloc, *epoch, *least, *percent, out)
        }
        Event::Halt(calls, all, line) => {
            let stop = Stop {
                calls: *calls,
                all: *all,
            };
            halt(running, alloc, line, stop, out)
        }
        Event::Deliver(number) => deliver(running, alloc, *number, out),
        Event::DeliverRange(first, last) => deliver_range(running, alloc, *first, *last, out),
        Event::Dump(number) => dump(running, alloc, *number, out),
        Event::Show => show(running, out),
        _ => unreachable!(),
    }
}
