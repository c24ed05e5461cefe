//! Events are made of the numbers of their lines.

ghost use Rattle.std.specs.Prelude.{◌≡◌, ℕ, ◌<◌, ◌≤◌, length, slice_index, get_or};
ghost use Rattle.schedule_text.specs.LineForms.{shape_of, IsNarrow};
ghost use Rattle.schedule_text.specs.Halting.{anywhere};
ghost use Rattle.schedule_text.specs.ReadEvents.{event_at};
ghost use Rattle.schedule_text.specs.declared.form.Place.TheVariants.{Incarnation as IncarnationPlace};

use crate::event::Event;
use crate::form::Head;
use schedule_unit::{AppNo, Asks, GroupNo, MachineNo, RackNo, UnitNo};

// The event of a line with these numbers and units.
pub fn make_event(head: Head, numbers: &[u64], asks: Asks) -> Event
    requires count { length numbers.now ≡ length (shape_of head).places }
    requires narrow { (i : ℕ) → i < length (shape_of head).places → IsNarrow (get_or (shape_of head).places i IncarnationPlace) (slice_index numbers.now i) }
    ensures event { result ≡ event_at head numbers.now asks }
    ensures anywhere { anywhere result ≡ result }
{
    match head {
        Head::Master => Event::Master(numbers[0]),
        Head::Stop => Event::Stop(numbers[0]),
        Head::Agent => Event::Agent(machine(numbers[0]), numbers[1]),
        Head::App => Event::App(job(numbers[0]), numbers[1]),
        Head::Submit => Event::Submit(numbers[0], job(numbers[1]), group(numbers[2]), asks),
        Head::Finish => Event::Finish(numbers[0], job(numbers[1])),
        Head::Ban => Event::Ban(numbers[0], machine(numbers[1])),
        Head::Unban => Event::Unban(numbers[0], machine(numbers[1])),
        Head::Begin => Event::Begin(numbers[0]),
        Head::Preempt => Event::Preempt(numbers[0]),
        Head::Judge => Event::Judge(numbers[0], small(numbers[1]), small(numbers[2])),
        Head::Want => Event::Want(job(numbers[0]), unit(numbers[1]), numbers[2]),
        Head::Near => Event::Near(
            job(numbers[0]),
            unit(numbers[1]),
            machine(numbers[2]),
            numbers[3],
        ),
        Head::Rack => Event::Rack(
            job(numbers[0]),
            unit(numbers[1]),
            rack(numbers[2]),
            numbers[3],
        ),
        Head::Avoid => Event::Avoid(
            job(numbers[0]),
            unit(numbers[1]),
            machine(numbers[2]),
            numbers[3] == 1,
        ),
        Head::Back => Event::Back(
            job(numbers[0]),
            unit(numbers[1]),
            machine(numbers[2]),
            numbers[3],
        ),
        Head::TurnMaster => Event::TurnMaster(numbers[0]),
        Head::TurnAgent => Event::TurnAgent(machine(numbers[0])),
        Head::TurnApp => Event::TurnApp(job(numbers[0])),
        Head::ResyncMaster => Event::ResyncMaster(numbers[0]),
        Head::ResyncAgent => Event::ResyncAgent(machine(numbers[0])),
        Head::ResyncApp => Event::ResyncApp(job(numbers[0])),
        Head::Deliver => Event::Deliver(numbers[0]),
        Head::DeliverRange => Event::DeliverRange(numbers[0], numbers[1]),
        Head::Dump => Event::Dump(numbers[0]),
        Head::Show => Event::Show,
    }
}

fn job(number: u64) -> AppNo
    requires { number < 256 }
    ensures { result.0 ≡ number }
{
    AppNo(number as u32)
}

fn unit(number: u64) -> UnitNo
    requires { number < 8 }
    ensures { result.0 ≡ number }
{
    UnitNo(number as u8)
}

fn machine(number: u64) -> MachineNo
    requires { number < 256 }
    ensures { result.0 ≡ number }
{
    MachineNo(number as u32)
}

fn rack(number: u64) -> RackNo
    requires { number < 64 }
    ensures { result.0 ≡ number }
{
    RackNo(number as u32)
}

fn group(number: u64) -> GroupNo
    requires { number < 32 }
    ensures { result.0 ≡ number }
{
    GroupNo(number as u32)
}

// Votes, or a percentage.
fn small(number: u64) -> u32
    requires { number ≤ 256 }
    ensures { result ≡ number }
{
    number as u32
}
