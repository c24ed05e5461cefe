//! The table of event lines.

ghost use Rattle.std.specs.Prelude.{◌≡◌, ◌≤◌, ◌⊎◌, [], length, map, filter, nat_eq, slice_index, slice_index_or};
ghost use Rattle.schedule_text.specs.LineForms.{heads, shape_of, as_shape, halt_shape, line as shape_line};

use crate::number::NumberPlace;
use fuxi_terms::limits::{MOST_GROUPS, MOST_JOBS, MOST_MACHINES, MOST_RACKS, MOST_UNITS};

// The most votes that a machine can have.
const MOST_VOTES: u64 = 256;

// One kind of event line.
#[derive(Clone, Copy, PartialEq, Eq)]
pub enum Head {
    Master,
    Stop,
    Agent,
    App,
    Submit,
    Finish,
    Ban,
    Unban,
    Begin,
    Preempt,
    Judge,
    Want,
    Near,
    Rack,
    Avoid,
    Back,
    TurnMaster,
    TurnAgent,
    TurnApp,
    ResyncMaster,
    ResyncAgent,
    ResyncApp,
    Deliver,
    DeliverRange,
    Dump,
    Show,
}

// What a number of a line is.
#[derive(Clone, Copy, PartialEq, Eq)]
pub enum Place {
    Incarnation,
    Job,
    Unit,
    Machine,
    Rack,
    Group,
    Switch,
    Packet,
    LastPacket,
    Votes,
    Percent,
    Calls,
    Count,
}

// What a line is made of: its first words, the numbers behind them, and whether units stand behind these.
#[derive(Clone, Copy)]
pub struct Form {
    pub words: &'static [&'static [u8]],
    pub places: &'static [Place],
    pub units: bool,
}

pub const HEADS: [Head; 26] = [
    Head::Master,
    Head::Stop,
    Head::Agent,
    Head::App,
    Head::Submit,
    Head::Finish,
    Head::Ban,
    Head::Unban,
    Head::Begin,
    Head::Preempt,
    Head::Judge,
    Head::Want,
    Head::Near,
    Head::Rack,
    Head::Avoid,
    Head::Back,
    Head::TurnMaster,
    Head::TurnAgent,
    Head::TurnApp,
    Head::ResyncMaster,
    Head::ResyncAgent,
    Head::ResyncApp,
    Head::Deliver,
    Head::DeliverRange,
    Head::Dump,
    Head::Show,
];

// The lines that write.
pub const WRITING_HEADS: [Head; 5] = [
    Head::Master,
    Head::Submit,
    Head::Finish,
    Head::Ban,
    Head::Unban,
];

// The lines whose first word begins with this letter; all of them where none does.
pub fn heads_with(letter: u8) -> &'static [Head]
    ensures { (result.now ≡ heads) ⊎ (result.now ≡ filter (λ head. nat_eq (slice_index (slice_index_or (shape_of head).words 0 []) 0) letter) heads) }
{
    match letter {
        b'a' => &[Head::Agent, Head::App, Head::Avoid],
        b'b' => &[Head::Ban, Head::Begin, Head::Back],
        b'd' => &[Head::Deliver, Head::DeliverRange, Head::Dump],
        b'f' => &[Head::Finish],
        b'j' => &[Head::Judge],
        b'm' => &[Head::Master],
        b'n' => &[Head::Near],
        b'p' => &[Head::Preempt],
        b'r' => &[
            Head::Rack,
            Head::ResyncMaster,
            Head::ResyncAgent,
            Head::ResyncApp,
        ],
        b's' => &[Head::Stop, Head::Submit, Head::Show],
        b't' => &[Head::TurnMaster, Head::TurnAgent, Head::TurnApp],
        b'u' => &[Head::Unban],
        b'w' => &[Head::Want],
        _ => &HEADS,
    }
}

fn line(words: &'static [&'static [u8]], places: &'static [Place]) -> Form
    ensures { as_shape result ≡ shape_line (map (λ w. w.now) words.now) places.now }
{
    Form {
        words,
        places,
        units: false,
    }
}

// The table.
pub fn form_of(head: Head) -> Form
    ensures shape { as_shape result ≡ shape_of head }
    ensures few { length result.places.now ≤ 4 }
{
    match head {
        Head::Master => line(&[b"master"], &[Place::Incarnation]),
        Head::Stop => line(&[b"stop"], &[Place::Incarnation]),
        Head::Agent => line(&[b"agent"], &[Place::Machine, Place::Incarnation]),
        Head::App => line(&[b"app"], &[Place::Job, Place::Incarnation]),
        Head::Submit => Form {
            words: &[b"submit"],
            places: &[Place::Incarnation, Place::Job, Place::Group],
            units: true,
        },
        Head::Finish => line(&[b"finish"], &[Place::Incarnation, Place::Job]),
        Head::Ban => line(&[b"ban"], &[Place::Incarnation, Place::Machine]),
        Head::Unban => line(&[b"unban"], &[Place::Incarnation, Place::Machine]),
        Head::Begin => line(&[b"begin"], &[Place::Incarnation]),
        Head::Preempt => line(&[b"preempt"], &[Place::Incarnation]),
        Head::Judge => line(
            &[b"judge"],
            &[Place::Incarnation, Place::Votes, Place::Percent],
        ),
        Head::Want => line(&[b"want"], &[Place::Job, Place::Unit, Place::Count]),
        Head::Near => line(
            &[b"near"],
            &[Place::Job, Place::Unit, Place::Machine, Place::Count],
        ),
        Head::Rack => line(
            &[b"rack"],
            &[Place::Job, Place::Unit, Place::Rack, Place::Count],
        ),
        Head::Avoid => line(
            &[b"avoid"],
            &[Place::Job, Place::Unit, Place::Machine, Place::Switch],
        ),
        Head::Back => line(
            &[b"back"],
            &[Place::Job, Place::Unit, Place::Machine, Place::Count],
        ),
        Head::TurnMaster => line(&[b"turn", b"master"], &[Place::Incarnation]),
        Head::TurnAgent => line(&[b"turn", b"agent"], &[Place::Machine]),
        Head::TurnApp => line(&[b"turn", b"app"], &[Place::Job]),
        Head::ResyncMaster => line(&[b"resync", b"master"], &[Place::Incarnation]),
        Head::ResyncAgent => line(&[b"resync", b"agent"], &[Place::Machine]),
        Head::ResyncApp => line(&[b"resync", b"app"], &[Place::Job]),
        Head::Deliver => line(&[b"deliver"], &[Place::Packet]),
        Head::DeliverRange => line(&[b"deliver"], &[Place::Packet, Place::LastPacket]),
        Head::Dump => line(&[b"dump"], &[Place::Packet]),
        Head::Show => line(&[b"show"], &[]),
    }
}

// What stands before the line within a stop of a writing.
pub fn halt_form() -> Form
    ensures shape { as_shape result ≡ halt_shape }
    ensures few { length result.places.now ≤ 4 }
{
    line(&[b"halt"], &[Place::Calls, Place::Switch])
}

impl NumberPlace for Place {
    ghost use Rattle.schedule_text.specs.LineForms.{is_within, IsNarrow};
    ghost use Rattle.schedule_text.specs.declared.form.Place.TheVariants.{Incarnation};

    ghost within = { is_within };

    ghost narrow = { IsNarrow };

    ghost other = { Incarnation };

    fn is_within(self, before: u64, number: u64) -> bool {
        match self {
            Place::Incarnation | Place::Packet => number != 0,
            Place::Job => number < MOST_JOBS as u64,
            Place::Machine => number < MOST_MACHINES as u64,
            Place::Unit => number < MOST_UNITS as u64,
            Place::Rack => number < MOST_RACKS as u64,
            Place::Group => number < MOST_GROUPS as u64,
            Place::Switch => number < 2,
            Place::LastPacket => number >= before,
            Place::Votes => (1..=MOST_VOTES).contains(&number),
            Place::Percent => number <= 100,
            Place::Calls => (1..=4).contains(&number),
            Place::Count => true,
        }
    }
}
