//! The events of named workers.

use schedule_unit::{AppNo, UnitNo};

/// One event line, with its numbers in the line's order. A boot is at least 1.
#[derive(Clone, Copy, Drop, PartialEq, Eq)]
pub enum WorkEvent {
    /// The agent starts in this boot.
    Agent(u64),
    /// The application starts in this boot.
    App(AppNo, u64),
    /// The agent may run so many workers of the unit, 0 to 100,000.
    Row(AppNo, UnitNo, u32),
    /// The application wants the worker of this number, 0 to 255, of the unit, or does so no longer.
    Plan(AppNo, UnitNo, u32, bool),
    /// The agent sends to each application that ever started.
    TurnAgent,
    /// The application sends to the agent, where it knows one.
    TurnApp(AppNo),
    /// The packet of this number, from 1, is delivered.
    Deliver(u64),
    /// The packets from the first number to the second are delivered, in their order.
    DeliverRange(u64, u64),
    /// The state is printed.
    Show,
}
