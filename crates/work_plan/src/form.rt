//! The table of event lines.

ghost use Rattle.std.specs.Prelude.{◌≡◌, ◌≤◌, length, map};
ghost use Rattle.work_plan.specs.WorkLineForms.{shape_of, as_shape, shape as shape_with};

use fuxi_terms::limits::{GREATEST_COUNT, MOST_JOBS, MOST_UNITS};
use schedule_text::NumberPlace;

// The numbers of workers are below this.
const MOST_WORKERS: u64 = 256;

// One kind of event line.
#[derive(Clone, Copy, PartialEq, Eq)]
pub enum Head {
    Agent,
    App,
    Row,
    Plan,
    TurnAgent,
    TurnApp,
    Deliver,
    DeliverRange,
    Show,
}

// What a number of a line is.
#[derive(Clone, Copy, PartialEq, Eq)]
pub enum Place {
    Boot,
    App,
    Unit,
    Count,
    Worker,
    Switch,
    Packet,
    LastPacket,
}

// What a line is made of: its first words, and the numbers behind them.
#[derive(Clone, Copy)]
pub struct Form {
    pub words: &'static [&'static [u8]],
    pub places: &'static [Place],
}

pub const HEADS: [Head; 9] = [
    Head::Agent,
    Head::App,
    Head::Row,
    Head::Plan,
    Head::TurnAgent,
    Head::TurnApp,
    Head::Deliver,
    Head::DeliverRange,
    Head::Show,
];

fn shape(words: &'static [&'static [u8]], places: &'static [Place]) -> Form
    ensures { as_shape result ≡ shape_with (map (λ w. w.now) words.now) places.now }
{
    Form { words, places }
}

// The table.
pub fn form_of(head: Head) -> Form
    ensures shape { as_shape result ≡ shape_of head }
    ensures few { length result.places.now ≤ 4 }
{
    match head {
        Head::Agent => shape(&[b"agent"], &[Place::Boot]),
        Head::App => shape(&[b"app"], &[Place::App, Place::Boot]),
        Head::Row => shape(&[b"row"], &[Place::App, Place::Unit, Place::Count]),
        Head::Plan => shape(
            &[b"plan"],
            &[Place::App, Place::Unit, Place::Worker, Place::Switch],
        ),
        Head::TurnAgent => shape(&[b"turn", b"agent"], &[]),
        Head::TurnApp => shape(&[b"turn", b"app"], &[Place::App]),
        Head::Deliver => shape(&[b"deliver"], &[Place::Packet]),
        Head::DeliverRange => shape(&[b"deliver"], &[Place::Packet, Place::LastPacket]),
        Head::Show => shape(&[b"show"], &[]),
    }
}

impl NumberPlace for Place {
    ghost use Rattle.work_plan.specs.WorkLineForms.{is_within, IsNarrow};
    ghost use Rattle.work_plan.specs.declared.form.Place.TheVariants.{Boot};

    ghost within = { is_within };

    ghost narrow = { IsNarrow };

    ghost other = { Boot };

    fn is_within(self, before: u64, number: u64) -> bool {
        match self {
            Place::Boot | Place::Packet => number != 0,
            Place::App => number < MOST_JOBS as u64,
            Place::Unit => number < MOST_UNITS as u64,
            Place::Count => number <= GREATEST_COUNT,
            Place::Worker => number < MOST_WORKERS,
            Place::Switch => number < 2,
            Place::LastPacket => number >= before,
        }
    }
}
