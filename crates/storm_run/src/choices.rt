//! The events of one step.

ghost use Rattle.std.specs.Prelude.{◌≡◌, ◌<◌, length, None};
ghost use Rattle.schedule_replay.specs.Worlds.{IsWorld, StandsFor};
ghost use Rattle.spec_world.specs.World.{World as WrittenWorld};
ghost use Rattle.storm_run.specs.Choices.{chosen, chosen_by, delivery, failover, move_at, restart, trouble};
ghost use Rattle.storm_run.specs.StormRuns.{listed, events_in, IsLine, AreLines, Chooses};

use crate::generator::Generator;
use crate::orders::{Order, order_event};
use running_parties::law;
use schedule_replay::Running;
use schedule_text::Event;
use schedule_unit::{MachineNo, UnitNo};

// The kind of a step.
#[derive(Clone, Copy)]
pub enum Move {
    Deliver,
    TurnMaster,
    TurnAgent,
    TurnApp,
    Want,
    Near,
    GiveBack,
    Restart,
    Trouble,
}

// By the number that a step draws first.
const MOVES: [Move; 12] = [
    Move::Deliver,
    Move::Deliver,
    Move::Deliver,
    Move::Deliver,
    Move::TurnMaster,
    Move::TurnAgent,
    Move::TurnApp,
    Move::Want,
    Move::Near,
    Move::GiveBack,
    Move::Restart,
    Move::Trouble,
];

// The events of a step: one, or none, and perhaps one before it.
#[derive(Drop)]
pub struct Choice {
    pub before: Option<Event>,
    pub event: Option<Event>,
}

impl Choice {
    fn of(event: Option<Event>) -> Choice
        ensures { result ≡ record { before = None; event = event } }
    {
        Choice {
            before: None,
            event,
        }
    }
}

// The kind of a step, by the number that it draws first.
fn move_of(number: u64) -> Move
    requires { number < 12 }
    ensures { result ≡ move_at number }
{
    MOVES[number as usize]
}

// One of the packets that were sent. Nothing is drawn where there is none.
fn deliver(packets: u64, generator: &mut Generator) -> Choice
    ensures chooses { (w : WrittenWorld) → packets ≡ length w.net.packets → Chooses (delivery w generator.old) result generator.new }
    ensures lines { AreLines result }
{
    if packets == 0 {
        return Choice::of(None);
    }
    Choice::of(Some(Event::Deliver(1 + generator.draw(packets))))
}

fn turn_agent(generator: &mut Generator) -> Choice
    ensures chooses { (w : WrittenWorld) → Chooses (chosen_by Move.TurnAgent w generator.old) result generator.new }
    ensures lines { AreLines result }
{
    Choice::of(Some(Event::TurnAgent(generator.draw_machine())))
}

fn turn_app(generator: &mut Generator) -> Choice
    ensures chooses { (w : WrittenWorld) → Chooses (chosen_by Move.TurnApp w generator.old) result generator.new }
    ensures lines { AreLines result }
{
    Choice::of(Some(Event::TurnApp(generator.draw_app())))
}

fn want(generator: &mut Generator) -> Choice
    ensures chooses { (w : WrittenWorld) → Chooses (chosen_by Move.Want w generator.old) result generator.new }
    ensures lines { AreLines result }
{
    let event = Event::Want(generator.draw_app(), UnitNo(0), generator.draw(41));
    Choice::of(Some(event))
}

fn near(generator: &mut Generator) -> Choice
    ensures chooses { (w : WrittenWorld) → Chooses (chosen_by Move.Near w generator.old) result generator.new }
    ensures lines { AreLines result }
{
    let app = generator.draw_app();
    let machine = generator.draw_machine();
    let count = generator.draw(5);
    Choice::of(Some(Event::Near(app, UnitNo(0), machine, count)))
}

fn give_back(generator: &mut Generator) -> Choice
    ensures chooses { (w : WrittenWorld) → Chooses (chosen_by Move.GiveBack w generator.old) result generator.new }
    ensures lines { AreLines result }
{
    let event = Event::Back(generator.draw_app(), UnitNo(0), generator.draw_machine(), 1);
    Choice::of(Some(event))
}

// The agent that runs on a machine starts again, with one more than its last boot.
fn restarted(running: &Running, machine: MachineNo) -> Option<Event>
    requires { machine.0 < 8 }
    ensures events { (w : WrittenWorld) → IsWorld w → StandsFor running.now w → listed result ≡ restart w machine.0 }
    ensures line { IsLine result }
{
    law::parties_run();
    let Some(agent) = running.agent(machine) else {
        return None;
    };
    match agent.boot().checked_add(1) {
        Some(boot) => Some(Event::Agent(machine, boot)),
        None => None,
    }
}

fn restart(running: &Running, generator: &mut Generator) -> Choice
    ensures chooses { (w : WrittenWorld) → IsWorld w → StandsFor running.now w → Chooses (chosen_by Move.Restart w generator.old) result generator.new }
    ensures lines { AreLines result }
{
    let machine = generator.draw_machine();
    let chance = generator.draw(10);
    if chance == 0 {
        Choice::of(restarted(running, machine))
    } else {
        Choice::of(None)
    }
}

// The master before the newest stops, and the next one starts.
fn failover(fence: u64) -> Choice
    ensures events { events_in result ≡ failover fence }
    ensures lines { AreLines result }
{
    let before = order_event(Order::Stop, fence.saturating_sub(1));
    match fence.checked_add(1) {
        Some(epoch) => Choice {
            before,
            event: order_event(Order::Start, epoch),
        },
        None => Choice {
            before,
            event: None,
        },
    }
}

// What befalls the newest master, by a number.
fn trouble(number: u64, fence: u64) -> Choice
    ensures events { events_in result ≡ trouble number fence }
    ensures lines { AreLines result }
{
    match number {
        0 => failover(fence),
        1 => Choice::of(order_event(Order::Preempt, fence)),
        2 => Choice::of(order_event(Order::Begin, fence)),
        3 => Choice::of(order_event(Order::Resync, fence)),
        _ => Choice::of(None),
    }
}

fn choose_by(kind: Move, running: &Running, generator: &mut Generator) -> Choice
    ensures chooses { (w : WrittenWorld) → IsWorld w → StandsFor running.now w → Chooses (chosen_by kind w generator.old) result generator.new }
    ensures lines { AreLines result }
{
    match kind {
        Move::Deliver => deliver(running.packets(), generator),
        Move::TurnMaster => Choice::of(order_event(Order::Turn, running.fence())),
        Move::TurnAgent => turn_agent(generator),
        Move::TurnApp => turn_app(generator),
        Move::Want => want(generator),
        Move::Near => near(generator),
        Move::GiveBack => give_back(generator),
        Move::Restart => restart(running, generator),
        Move::Trouble => trouble(generator.draw(10), running.fence()),
    }
}

// The events of the next step.
pub(crate) fn choose(running: &Running, generator: &mut Generator) -> Choice
    ensures chooses { (w : WrittenWorld) → IsWorld w → StandsFor running.now w → Chooses (chosen w generator.old) result generator.new }
    ensures lines { AreLines result }
{
    let kind = move_of(generator.draw(12));
    choose_by(kind, running, generator)
}
