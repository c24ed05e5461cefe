//! Events are made of the numbers of their lines.

ghost use Rattle.std.specs.Prelude.{◌≡◌, ℕ, ◌<◌, ◌^◌, length, slice_index, get_or};
ghost use Rattle.work_plan.specs.WorkLineForms.{shape_of, IsNarrow};
ghost use Rattle.work_plan.specs.ReadWorkEvents.{event_at};
ghost use Rattle.work_plan.specs.declared.form.Place.TheVariants.{Boot as BootPlace};

use crate::WorkEvent;
use crate::form::Head;
use schedule_unit::{AppNo, UnitNo};

// The event of a line with these numbers.
pub fn make_event(head: Head, numbers: &[u64]) -> WorkEvent
    requires count { length numbers.now ≡ length (shape_of head).places }
    requires narrow { (i : ℕ) → i < length (shape_of head).places → IsNarrow (get_or (shape_of head).places i BootPlace) (slice_index numbers.now i) }
    ensures { result ≡ event_at head numbers.now }
{
    match head {
        Head::Agent => WorkEvent::Agent(numbers[0]),
        Head::App => WorkEvent::App(app(numbers[0]), numbers[1]),
        Head::Row => WorkEvent::Row(app(numbers[0]), unit(numbers[1]), small(numbers[2])),
        Head::Plan => WorkEvent::Plan(
            app(numbers[0]),
            unit(numbers[1]),
            small(numbers[2]),
            numbers[3] == 1,
        ),
        Head::TurnAgent => WorkEvent::TurnAgent,
        Head::TurnApp => WorkEvent::TurnApp(app(numbers[0])),
        Head::Deliver => WorkEvent::Deliver(numbers[0]),
        Head::DeliverRange => WorkEvent::DeliverRange(numbers[0], numbers[1]),
        Head::Show => WorkEvent::Show,
    }
}

fn app(number: u64) -> AppNo
    requires { number < 2 ^ 32 }
    ensures { result ≡ record { 0 = number } }
{
    AppNo(number as u32)
}

fn unit(number: u64) -> UnitNo
    requires { number < 2 ^ 8 }
    ensures { result ≡ record { 0 = number } }
{
    UnitNo(number as u8)
}

fn small(number: u64) -> u32
    requires { number < 2 ^ 32 }
    ensures { result ≡ number }
{
    number as u32
}
