//! Lines for a lease are read.

ghost use Rattle.std.specs.Prelude.{◌≡◌, IfOk, IfErr, Ok, map};
ghost use Rattle.schedule_text.specs.ReadEvents.{IsFault};
ghost use Rattle.epoch_lease.specs.LeaseLines.{acquire_of, epoch_at, event_of_words, expire_of, held_at, holder_at, lease_event, release_of, renew_of};

use crate::event::LeaseEvent;
use fuxi_terms::OutOfMemory;
use schedule_text::{LineFault, words_of};
use schedule_unit::read_number;
use std::alloc::Global;

// The greatest number of a holder.
const GREATEST_HOLDER: u64 = 65_535;

/// What a line tells a lease; it has no newline. The first test that fails decides: the first word is known, the line has as many words
/// as its event, and place by place the word is a number, and within its range: a holder is at most 65,535, and an epoch at least 1.
pub fn read_lease(alloc: Global, line: &[u8]) -> Result<LeaseEvent, LineFault>
    ensures ok { IfOk result (λ event. lease_event line.now ≡ Ok event) }
    ensures fault { IfErr result (IsFault (lease_event line.now)) }
{
    let words = match words_of(alloc, line) {
        Ok(words) => words,
        Err(OutOfMemory) => return Err(LineFault::OutOfMemory),
    };
    match event_of_words(&words) {
        Ok(event) => Ok(event),
        Err(fault) => Err(fault),
    }
}

// Each of the following is about a word at its place in the line, or the words behind the first one.

fn holder_at(word: &[u8]) -> Result<u32, LineFault>
    ensures { result ≡ holder_at word.now }
{
    match read_number(word) {
        None => Err(LineFault::BadNumber(1)),
        Some(holder) if holder <= GREATEST_HOLDER => Ok(holder as u32),
        Some(_) => Err(LineFault::Range(1)),
    }
}

fn epoch_at(word: &[u8]) -> Result<u64, LineFault>
    ensures { result ≡ epoch_at word.now }
{
    match read_number(word) {
        None => Err(LineFault::BadNumber(2)),
        Some(0) => Err(LineFault::Range(2)),
        Some(epoch) => Ok(epoch),
    }
}

fn acquire_of(words: &[&[u8]]) -> Result<LeaseEvent, LineFault>
    ensures { result ≡ acquire_of (map (λ w. w.now) words.now) }
{
    let [holder] = words else {
        return Err(LineFault::WrongCount);
    };
    match holder_at(holder) {
        Ok(holder) => Ok(LeaseEvent::Acquire(holder)),
        Err(fault) => Err(fault),
    }
}

fn held_at(words: &[&[u8]]) -> Result<(u32, u64), LineFault>
    ensures { result ≡ held_at (map (λ w. w.now) words.now) }
{
    let [holder, epoch] = words else {
        return Err(LineFault::WrongCount);
    };
    match (holder_at(holder), epoch_at(epoch)) {
        (Ok(holder), Ok(epoch)) => Ok((holder, epoch)),
        (Err(fault), _) | (Ok(_), Err(fault)) => Err(fault),
    }
}

fn renew_of(words: &[&[u8]]) -> Result<LeaseEvent, LineFault>
    ensures { result ≡ renew_of (map (λ w. w.now) words.now) }
{
    match held_at(words) {
        Ok((holder, epoch)) => Ok(LeaseEvent::Renew(holder, epoch)),
        Err(fault) => Err(fault),
    }
}

fn release_of(words: &[&[u8]]) -> Result<LeaseEvent, LineFault>
    ensures { result ≡ release_of (map (λ w. w.now) words.now) }
{
    match held_at(words) {
        Ok((holder, epoch)) => Ok(LeaseEvent::Release(holder, epoch)),
        Err(fault) => Err(fault),
    }
}

fn expire_of(words: &[&[u8]]) -> Result<LeaseEvent, LineFault>
    ensures { result ≡ expire_of (map (λ w. w.now) words.now) }
{
    if words.is_empty() {
        Ok(LeaseEvent::Expire)
    } else {
        Err(LineFault::WrongCount)
    }
}

fn event_of_words(words: &[&[u8]]) -> Result<LeaseEvent, LineFault>
    ensures { result ≡ event_of_words (map (λ w. w.now) words.now) }
{
    let [word, behind @ ..] = words else {
        return Err(LineFault::UnknownWord);
    };
    if *word == b"acquire".as_slice() {
        return acquire_of(behind);
    }
    if *word == b"renew".as_slice() {
        return renew_of(behind);
    }
    if *word == b"release".as_slice() {
        return release_of(behind);
    }
    if *word == b"expire".as_slice() {
        return expire_of(behind);
    }
    Err(LineFault::UnknownWord)
}
