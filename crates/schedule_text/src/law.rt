//! The laws of the definitions. Each function does nothing; its contract is a law.

ghost use Rattle.schedule_text.specs.Asked.{AreTestedAlike};
ghost use Rattle.std.specs.Prelude.{◌≡◌, ℕ, List, Ok};
ghost use Rattle.schedule_text.specs.ReadEvents.{event_of};
ghost use Rattle.schedule_text.specs.Writing.{IsLineEvent};
ghost use Rattle.schedule_text.specs.declared.event.Event.{Event as AnyEvent};

/// What is asked for a job is tested alike by `Job::make` and by the definitions of events. It does nothing: its
/// contract is the law.
pub fn jobs_are_tested_alike()
    ensures { AreTestedAlike }
{}

/// What is read of a line is an event that a line can give.
pub fn events_of_lines()
    ensures { (line : List ℕ) (event : AnyEvent) → event_of line ≡ Ok event → IsLineEvent event }
{}
