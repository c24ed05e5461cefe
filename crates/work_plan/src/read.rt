//! Event lines are read.

ghost use Rattle.std.specs.Prelude.{◌≡◌, true, ◌^◌, ◌<◌, IfOk, IfErr, Ok, Err, map, length};
ghost use Rattle.schedule_text.specs.ReadEvents.{IsFault};
ghost use Rattle.work_plan.specs.WorkLineForms.{shape_of};
ghost use Rattle.work_plan.specs.ReadWorkEvents.{has_count, event_behind, work_of_words, work_of};
ghost use Rattle.work_plan.specs.GivenEvents.{IsGiven};

use crate::WorkEvent;
use crate::form::{HEADS, Head, form_of};
use crate::make::make_event;
use schedule_text::{LineFault, LineHead, begins_with, head_of, numbers_at, words_of};
use std::alloc::Global;

/// The event of a line, which has no newline. The first test that fails decides: the first word, and the second of a turn, is
/// known; the line has as many words as its event; and place by place the word is a number, and within its range.
/// `OutOfMemory` may come in place of any answer.
pub fn read_work(alloc: Global, line: &[u8]) -> Result<WorkEvent, LineFault>
    ensures ok { IfOk result (λ event. work_of line.now ≡ Ok event) }
    ensures given { IfOk result IsGiven }
    ensures fault { IfErr result (IsFault (work_of line.now)) }
{
    let words = words_of(alloc, line)?;
    match event_in(words.as_slice()) {
        Ok(event) => Ok(event),
        Err(fault) => Err(fault),
    }
}

// The event of the words of a line.
fn event_in(words: &[&[u8]]) -> Result<WorkEvent, LineFault>
    requires { length words.now < 2 ^ 60 }
    ensures ok { IfOk result (λ event. work_of_words (map (λ w. w.now) words.now) ≡ Ok event) }
    ensures given { IfOk result IsGiven }
    ensures fault { IfErr result (λ fault. work_of_words (map (λ w. w.now) words.now) ≡ Err fault) }
{
    if words.is_empty() {
        return Err(LineFault::UnknownWord);
    }
    match head_of(&HEADS, words) {
        Ok(head) => event_behind(head, words),
        Err(fault) => Err(fault),
    }
}

impl LineHead for Head {
    ghost use Rattle.work_plan.specs.WorkLineForms.{shape_of};
    ghost use Rattle.work_plan.specs.ReadWorkEvents.{begins, has_count};

    ghost begun = { λ head. begins (shape_of head) };

    ghost counted = { λ head. has_count (shape_of head) };

    fn is_begun(self, words: &[&[u8]]) -> bool {
        begins_with(form_of(self).words, words)
    }

    fn is_counted(self, words: &[&[u8]]) -> bool {
        let form = form_of(self);
        words.len() == form.words.len() + form.places.len()
    }
}

// The event with the numbers of the line, which has as many words as it must.
fn event_behind(head: Head, words: &[&[u8]]) -> Result<WorkEvent, LineFault>
    requires count { has_count (shape_of head) (map (λ w. w.now) words.now) ≡ true }
    requires range { length words.now < 2 ^ 60 }
    ensures ok { IfOk result (λ event. event_behind head (map (λ w. w.now) words.now) ≡ Ok event) }
    ensures given { IfOk result IsGiven }
    ensures fault { IfErr result (λ fault. event_behind head (map (λ w. w.now) words.now) ≡ Err fault) }
{
    let form = form_of(head);
    let (_, behind) = words.split_at(form.words.len());
    let count = form.places.len();
    let numbers = match numbers_at(form.places, form.words.len(), behind) {
        Ok(numbers) => numbers,
        Err(fault) => return Err(fault),
    };
    let (numbers, _) = numbers.as_slice().split_at(count);
    Ok(make_event(head, numbers))
}
