//! Event lines are read.

ghost use Rattle.std.specs.Prelude.{◌≡◌, true, false, ◌+◌, ◌^◌, ◌<◌, ◌≤◌, ◌∷◌, [], nat_eq, slice_index, slice_index_or, IfOk, IfErr, Ok, Err, map, length, codes};
ghost use Rattle.std.specs.List.{list_all};
ghost use Rattle.schedule_text.specs.declared.form.Place.TheVariants.{Count};
ghost use Rattle.schedule_text.specs.LineForms.{heads, halt_shape, shape_of, as_shape};
ghost use Rattle.schedule_text.specs.ReadEvents.{begins, has_count, own_count, is_unit, units_of, head_of, number_at, numbers_at, counts_at, most_at, ask_at, asks_at, asks_of, event_behind, stop_of, halt_of, event_of_words, event_of, front, IsFault, IsRead};
ghost use Rattle.schedule_text.specs.Halting.{anywhere};
ghost use Rattle.schedule_text.specs.Words.{words_of};
ghost use Rattle.schedule_text.specs.Writing.{IsLineEvent};

use crate::event::{Event, LineFault};
use crate::form::{Form, HEADS, Head, Place, WRITING_HEADS, form_of, halt_form, heads_with};
use crate::head::{LineHead, head_of};
use crate::make::make_event;
use crate::number::{begins_with, numbers_at};
use crate::usual::{deliver_of, deliver_range_of, near_of, turn_agent_of, turn_app_of, want_of};
use crate::word::{few_words, words_of};
use fuxi_terms::OutOfMemory;
use fuxi_terms::limits::GREATEST_COUNT;
use schedule_unit::{Ask, Asks, Quantities, read_number};
use std::alloc::Global;

/// The event of a line, which has no newline. The first test that fails decides: the first word, the second of a turn
/// or a resync, and the first of the line within a stop is known; the line has as many words as its event; and place
/// by place the word is a number, and within its range. The last two words of a unit may be `most` and a number.
/// `OutOfMemory` may come in place of any answer.
pub fn read_event(alloc: Global, line: &[u8]) -> Result<Event, LineFault>
    ensures ok { IfOk result (λ event. event_of line.now ≡ Ok (anywhere event)) }
    ensures line { IfOk result IsLineEvent }
    ensures fault { IfErr result (IsFault (event_of line.now)) }
{
    event_of(alloc, line)
}

// The event of a line, whose words want no memory where they are few.
fn event_of(alloc: Global, line: &[u8]) -> Result<Event, LineFault>
    ensures ok { IfOk result (λ event. event_of line.now ≡ Ok (anywhere event)) }
    ensures fault { IfErr result (IsFault (event_of line.now)) }
{
    let mut few: [&[u8]; 8] = [&[]; 8];
    match few_words(line, &mut few) {
        Some(count) => {
            let (words, _) = few.as_slice().split_at(count);
            event_in(alloc, words)
        }
        None => event_of_many(alloc, line),
    }
}

// The event of a line of many words.
fn event_of_many(alloc: Global, line: &[u8]) -> Result<Event, LineFault>
    ensures ok { IfOk result (λ event. event_of line.now ≡ Ok (anywhere event)) }
    ensures fault { IfErr result (IsFault (event_of line.now)) }
{
    let words = words_of(alloc, line)?;
    event_by_table(alloc, &words)
}

// The event of the words of a line. Those of the lines that stand most in a schedule need no look at the table.
fn event_in(alloc: Global, words: &[&[u8]]) -> Result<Event, LineFault>
    requires { length words.now < 2 ^ 60 }
    ensures { IsRead (map (λ w. w.now) words.now) result }
{
    match words {
        [word, packet] if *word == b"deliver".as_slice() => deliver_of(packet),
        [word, first, last] if *word == b"deliver".as_slice() => deliver_range_of(first, last),
        [word, app, unit, count] if *word == b"want".as_slice() => want_of(app, unit, count),
        [word, app, unit, machine, count] if *word == b"near".as_slice() => {
            near_of(app, unit, machine, count)
        }
        [word, role, number] if *word == b"turn".as_slice() => turn_in(alloc, words, role, number),
        _ => event_by_table(alloc, words),
    }
}

// The event of a turn of this party.
fn turn_in(alloc: Global, words: &[&[u8]], role: &[u8], number: &[u8]) -> Result<Event, LineFault>
    requires { map (λ w. w.now) words.now ≡ codes "turn" ∷ role.now ∷ number.now ∷ [] }
    ensures { IsRead (map (λ w. w.now) words.now) result }
{
    if role == b"agent".as_slice() {
        return turn_agent_of(number);
    }
    if role == b"app".as_slice() {
        return turn_app_of(number);
    }
    event_by_table(alloc, words)
}

// The event of the words of a line, by the table.
fn event_by_table(alloc: Global, words: &[&[u8]]) -> Result<Event, LineFault>
    requires { length words.now < 2 ^ 60 }
    ensures ok { IfOk result (λ event. event_of_words (map (λ w. w.now) words.now) ≡ Ok (anywhere event)) }
    ensures fault { IfErr result (IsFault (event_of_words (map (λ w. w.now) words.now))) }
{
    if words.is_empty() {
        return Err(LineFault::UnknownWord);
    }
    if is_halt(words) {
        return halt_of(alloc, words);
    }
    match head_in(words) {
        Ok(head) => event_behind(alloc, head, 0, words),
        Err(fault) => Err(fault),
    }
}

// Whether these words begin a stop within a writing.
fn is_halt(words: &[&[u8]]) -> bool
    ensures { result ≡ begins halt_shape (map (λ w. w.now) words.now) }
{
    if is_other(b'h', words) {
        return false;
    }
    begins(&halt_form(), words)
}

// Whether the first word begins with another letter.
fn is_other(letter: u8, words: &[&[u8]]) -> bool
    ensures { result ≡ true → (1 ≤ length words.now) × (nat_eq letter (slice_index (slice_index_or (map (λ w. w.now) words.now) 0 []) 0) ≡ false) }
{
    match words {
        [word, ..] if !word.is_empty() => word[0] != letter,
        _ => false,
    }
}

// Which line of the table it is. Only those are tried whose first word begins as that of the line.
fn head_in(words: &[&[u8]]) -> Result<Head, LineFault>
    ensures value { result ≡ head_of heads (map (λ w. w.now) words.now) }
    ensures count { IfOk result (λ head. has_count (shape_of head) (map (λ w. w.now) words.now) ≡ true) }
{
    match words {
        [word, ..] if !word.is_empty() => head_of(heads_with(word[0]), words),
        _ => head_of(&HEADS, words),
    }
}

impl LineHead for Head {
    ghost use Rattle.schedule_text.specs.LineForms.{shape_of};
    ghost use Rattle.schedule_text.specs.ReadEvents.{begins, has_count};

    ghost begun = { λ head. begins (shape_of head) };

    ghost counted = { λ head. has_count (shape_of head) };

    fn is_begun(self, words: &[&[u8]]) -> bool {
        begins(&form_of(self), words)
    }

    fn is_counted(self, words: &[&[u8]]) -> bool {
        has_count(&form_of(self), words)
    }
}

fn begins(form: &Form, words: &[&[u8]]) -> bool
    ensures { result ≡ begins (as_shape form.now) (map (λ w. w.now) words.now) }
{
    begins_with(form.words, words)
}

fn has_count(form: &Form, words: &[&[u8]]) -> bool
    ensures { result ≡ has_count (as_shape form.now) (map (λ w. w.now) words.now) }
{
    let front = form.words.len() + form.places.len();
    if !form.units {
        return words.len() == front;
    }
    if words.len() <= front {
        return false;
    }
    let (_, behind) = words.split_at(front);
    are_units(behind)
}

fn are_units(words: &[&[u8]]) -> bool
    ensures { result ≡ list_all is_unit (units_of (map (λ w. w.now) words.now)) }
{
    words
        .split(|word| *word == b"/".as_slice())
        .all(|unit| is_unit(unit))
}

// Whether these are the words of a unit.
fn is_unit(words: &[&[u8]]) -> bool
    ensures { result ≡ is_unit (map (λ w. w.now) words.now) }
{
    (2..=9).contains(&own_count(words))
}

// How many words a unit has beside its bound, which `most` and the last word are.
fn own_count(words: &[&[u8]]) -> usize
    ensures value { result ≡ own_count (map (λ w. w.now) words.now) }
    ensures within { result ≤ length words.now }
{
    match words {
        [own @ .., word, _] if *word == b"most".as_slice() => own.len(),
        _ => words.len(),
    }
}

// The event with the numbers and units of the line, which begins at a place and has as many words as it must.
fn event_behind(
    alloc: Global,
    head: Head,
    first: usize,
    words: &[&[u8]],
) -> Result<Event, LineFault>
    requires count { has_count (shape_of head) (map (λ w. w.now) words.now) ≡ true }
    requires range { first + length words.now < 2 ^ 61 }
    ensures ok { IfOk result (λ event. event_behind head first (map (λ w. w.now) words.now) ≡ Ok (anywhere event)) }
    ensures fault { IfErr result (IsFault (event_behind head first (map (λ w. w.now) words.now))) }
{
    let form = form_of(head);
    let (_, behind) = words.split_at(form.words.len());
    let count = form.places.len();
    let numbers = numbers_at(form.places, first + form.words.len(), behind)?;
    let (numbers, _) = numbers.as_slice().split_at(count);
    match asks_of(alloc, &form, first, words) {
        Ok(asks) => Ok(make_event(head, numbers, asks)),
        Err(fault) => Err(fault),
    }
}

// The units behind the numbers, where the line has units.
fn asks_of(alloc: Global, form: &Form, first: usize, words: &[&[u8]]) -> Result<Asks, LineFault>
    requires count { has_count (as_shape form.now) (map (λ w. w.now) words.now) ≡ true }
    requires range { first + length words.now < 2 ^ 61 }
    ensures ok { IfOk result (λ asks. asks_of (as_shape form.now) first (map (λ w. w.now) words.now) ≡ Ok asks) }
    ensures fault { IfErr result (IsFault (asks_of (as_shape form.now) first (map (λ w. w.now) words.now))) }
{
    if !form.units {
        return Ok(Asks::new(alloc));
    }
    let front = form.words.len() + form.places.len();
    let (_, units) = words.split_at(front);
    asks_at(alloc, first + front, units)
}

// The numbers of a stop within a writing, behind its word.
fn stop_of(words: &[&[u8]]) -> Result<(u8, bool), LineFault>
    requires there { 3 ≤ length words.now }
    ensures ok { IfOk result (λ stop. stop_of (map (λ w. w.now) words.now) ≡ Ok stop) }
    ensures fault { IfErr result (λ fault. stop_of (map (λ w. w.now) words.now) ≡ Err fault) }
{
    let form = halt_form();
    let (_, behind) = words.split_at(1);
    match numbers_at(form.places, 1, behind) {
        Ok(numbers) => Ok((numbers[0] as u8, numbers[1] == 1)),
        Err(fault) => Err(fault),
    }
}

// A stop within a writing: which line stands behind its numbers, then they, and then what that line has.
fn halt_of(alloc: Global, words: &[&[u8]]) -> Result<Event, LineFault>
    requires range { length words.now < 2 ^ 60 }
    ensures ok { IfOk result (λ event. halt_of (map (λ w. w.now) words.now) ≡ Ok (anywhere event)) }
    ensures fault { IfErr result (IsFault (halt_of (map (λ w. w.now) words.now))) }
{
    if words.len() < 3 {
        return Err(LineFault::WrongCount);
    }
    let (_, inner) = words.split_at(3);
    let head = match head_of(&WRITING_HEADS, inner) {
        Ok(head) => head,
        Err(fault) => return Err(fault),
    };
    let (calls, all) = match stop_of(words) {
        Ok(stop) => stop,
        Err(fault) => return Err(fault),
    };
    let line = match event_behind(alloc, head, 3, inner) {
        Ok(line) => line,
        Err(fault) => return Err(fault),
    };
    match Box::new(alloc, line) {
        Ok(line) => Ok(Event::Halt(calls, all, line)),
        Err(_) => Err(LineFault::OutOfMemory),
    }
}

// Any number, at a place of the line.
fn count_at(place: usize, word: &[u8]) -> Result<u64, LineFault>
    ensures { result ≡ number_at Count place 0 word.now }
{
    match read_number(word) {
        Some(number) => Ok(number),
        None => Err(LineFault::BadNumber(place as u64)),
    }
}

// Any numbers, which stand from a place of the line on.
fn quantities_at(alloc: Global, first: usize, words: &[&[u8]]) -> Result<Quantities, LineFault>
    requires { first + length words.now < 2 ^ 63 }
    ensures ok { IfOk result (λ quantities. counts_at first (map (λ w. w.now) words.now) ≡ Ok quantities) }
    ensures fault { IfErr result (IsFault (counts_at first (map (λ w. w.now) words.now))) }
{
    let mut quantities = Quantities::new(alloc);
    for (index, word) in words.iter().enumerate() {
        let quantity = match count_at(first + index, word) {
            Ok(quantity) => quantity,
            Err(fault) => return Err(fault),
        };
        match quantities.push(quantity) {
            Ok(()) => {}
            Err(_) => return Err(LineFault::OutOfMemory),
        }
    }
    Ok(quantities)
}

// The number of a bound, which stands from a place of the line on, and the greatest where there is none.
fn most_at(place: usize, bound: &[&[u8]]) -> Result<u64, LineFault>
    requires { place + length bound.now < 2 ^ 63 }
    ensures { result ≡ most_at place (map (λ w. w.now) bound.now) }
{
    match bound {
        [_, word, ..] => count_at(place + 1, word),
        _ => Ok(GREATEST_COUNT),
    }
}

// A priority and quantities, which stand from a place of the line on.
fn own_at(alloc: Global, first: usize, words: &[&[u8]]) -> Result<(u64, Quantities), LineFault>
    requires range { first + length words.now < 2 ^ 63 }
    requires some { 1 ≤ length words.now }
    ensures ok { IfOk result (λ own. counts_at first (map (λ w. w.now) words.now) ≡ Ok (own.0 ∷ own.1)) }
    ensures fault { IfErr result (IsFault (counts_at first (map (λ w. w.now) words.now))) }
{
    let [word, others @ ..] = words else {
        unreachable!()
    };
    let priority = count_at(first, word)?;
    let quantities = quantities_at(alloc, first + 1, others)?;
    Ok((priority, quantities))
}

// A unit, which stands from a place of the line on.
fn ask_at(alloc: Global, first: usize, words: &[&[u8]]) -> Result<Ask, LineFault>
    requires range { first + length words.now < 2 ^ 63 }
    requires unit { is_unit (map (λ w. w.now) words.now) ≡ true }
    ensures ok { IfOk result (λ ask. ask_at first (map (λ w. w.now) words.now) ≡ Ok ask) }
    ensures fault { IfErr result (IsFault (ask_at first (map (λ w. w.now) words.now))) }
{
    let (own, bound) = words.split_at(own_count(words));
    let (priority, quantities) = match own_at(alloc, first, own) {
        Ok(own) => own,
        Err(fault) => return Err(fault),
    };
    match most_at(first + own.len(), bound) {
        Ok(most) => Ok(Ask {
            priority,
            quantities,
            most,
        }),
        Err(fault) => Err(fault),
    }
}

// The words of each unit.
fn units_of<'a, 'b>(
    alloc: Global,
    words: &'a [&'b [u8]],
) -> Result<Vec<&'a [&'b [u8]]>, OutOfMemory>
    ensures { IfOk result (λ units. map (λ u. map (λ w. w.now) u.now) units.items ≡ units_of (map (λ w. w.now) words.now)) }
{
    Ok(words.split(|word| *word == b"/".as_slice()).collect(alloc)?)
}

// Units, which stand from a place of the line on.
fn asks_at(alloc: Global, first: usize, words: &[&[u8]]) -> Result<Asks, LineFault>
    requires range { first + length words.now < 2 ^ 62 }
    requires units { list_all is_unit (units_of (map (λ w. w.now) words.now)) ≡ true }
    ensures ok { IfOk result (λ asks. asks_at first (units_of (map (λ w. w.now) words.now)) ≡ Ok asks) }
    ensures fault { IfErr result (IsFault (asks_at first (units_of (map (λ w. w.now) words.now)))) }
{
    let units = units_of(alloc, words)?;
    let mut asks = Asks::new(alloc);
    let mut place = first;
    for unit in &units {
        let ask = match ask_at(alloc, place, unit) {
            Ok(ask) => ask,
            Err(fault) => return Err(fault),
        };
        match asks.push(ask) {
            Ok(()) => {}
            Err(_) => return Err(LineFault::OutOfMemory),
        }
        place += unit.len() + 1;
    }
    Ok(asks)
}
