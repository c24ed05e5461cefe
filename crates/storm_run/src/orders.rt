//! What masters and their peers are told by their numbers.

ghost use Rattle.std.specs.Prelude.{◌≡◌, ◌<◌};
ghost use Rattle.schedule_replay.specs.LineEvents.{event_as};
ghost use Rattle.schedule_text.specs.Writing.{IsLineEvent};
ghost use Rattle.storm_run.specs.Choices.{counted, ordered};
ghost use Rattle.storm_run.specs.StormRuns.{listed, told, IsLine};

use schedule_text::Event;
use schedule_unit::{AppNo, MachineNo};

// What the master of an epoch is told.
#[derive(Clone, Copy)]
pub enum Order {
    Start,
    Stop,
    Turn,
    Begin,
    Preempt,
    Resync,
}

// What an agent or an application is told.
#[derive(Clone, Copy)]
pub enum PeerOrder {
    StartAgent,
    StartApp,
    TurnAgent,
    TurnApp,
}

// The event of an order for an epoch. There is no epoch 0.
pub(crate) fn order_event(order: Order, epoch: u64) -> Option<Event>
    ensures events { listed result ≡ counted epoch (ordered order) }
    ensures line { IsLine result }
{
    if epoch == 0 {
        return None;
    }
    Some(match order {
        Order::Start => Event::Master(epoch),
        Order::Stop => Event::Stop(epoch),
        Order::Turn => Event::TurnMaster(epoch),
        Order::Begin => Event::Begin(epoch),
        Order::Preempt => Event::Preempt(epoch),
        Order::Resync => Event::ResyncMaster(epoch),
    })
}

// The event of an order for a peer of this number.
pub(crate) fn peer_event(order: PeerOrder, number: u32) -> Event
    requires { number < 8 }
    ensures event { event_as result ≡ told order number }
    ensures line { IsLineEvent result }
{
    match order {
        PeerOrder::StartAgent => Event::Agent(MachineNo(number), 1),
        PeerOrder::StartApp => Event::App(AppNo(number), 1),
        PeerOrder::TurnAgent => Event::TurnAgent(MachineNo(number)),
        PeerOrder::TurnApp => Event::TurnApp(AppNo(number)),
    }
}
