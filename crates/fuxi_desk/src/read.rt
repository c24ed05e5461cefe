//! Lines of a desk are read.

ghost use Rattle.std.specs.Prelude.{◌≡◌, ◌<◌, IfOk, IfErr, Ok, map, not};
ghost use Rattle.std.specs.List.{list_all};
ghost use Rattle.std.specs.Option.{option_map};
ghost use Rattle.schedule_text.specs.Halting.{anywhere};
ghost use Rattle.schedule_text.specs.ReadEvents.{IsFault, event_of};
ghost use Rattle.schedule_text.specs.Words.{words_of};
ghost use Rattle.schedule_text.specs.Writing.{IsLineEvent};
ghost use Rattle.master_desk.specs.CallOrders.{most_sessions};
ghost use Rattle.schedule_unit.specs.NumberWords.{number_of};
ghost use Rattle.fuxi_desk.specs.DeskLines.{call_of, call_with, desk_event, hex_of, is_capital, is_plain, session_at, submits};
ghost use Rattle.fuxi_desk.specs.Saying.{IsSaid, said_of};

use fuxi_terms::OutOfMemory;
use hex::FromHexError;
use master_desk::MOST_SESSIONS;
use schedule_text::{Event, LineFault, read_event};
use schedule_unit::read_number;
use std::alloc::Global;

/// What a line of a desk says.
#[derive(Drop)]
pub enum DeskLine {
    /// A job is submitted.
    Submit(Event),
    /// A session has one call more, with these bytes.
    Call(u32, Vec<u8>),
}

// Whether a byte is one of the letters A to F.
fn is_capital(byte: u8) -> bool
    ensures { result ≡ is_capital byte }
{
    byte >= 65 && byte <= 70
}

// Whether a word has no capital digit.
fn has_no_capital(word: &[u8]) -> bool
    ensures { result ≡ list_all (λ b. not (is_capital b)) word.now }
{
    word.iter().all(|byte| !is_capital(*byte))
}

// Whether a word has a byte and no capital digit.
fn is_plain(word: &[u8]) -> bool
    ensures { result ≡ is_plain word.now }
{
    !word.is_empty() && has_no_capital(word)
}

// The bytes that a word says in hexadecimal digits, without capital letters, where it says at least one.
fn hex_of(alloc: Global, word: &[u8]) -> Result<Option<Vec<u8>>, OutOfMemory>
    ensures { IfOk result (λ found. option_map (λ bytes. bytes.items) found ≡ hex_of word.now) }
{
    if !is_plain(word) {
        return Ok(None);
    }
    match hex::decode(alloc, word) {
        Ok(bytes) => Ok(Some(bytes)),
        Err(fault) => match fault {
            FromHexError::OutOfMemory => Err(OutOfMemory),
            _ => Ok(None),
        },
    }
}

fn session_at(word: &[u8]) -> Result<u32, LineFault>
    ensures value { result ≡ session_at (number_of word.now) }
    ensures within { IfOk result (λ session. session < most_sessions) }
{
    match read_number(word) {
        None => Err(LineFault::BadNumber(1)),
        Some(session) if session < u64::from(MOST_SESSIONS) => Ok(session as u32),
        Some(_) => Err(LineFault::Range(1)),
    }
}

// A call, by its session and its digits.
fn call_with(alloc: Global, session: &[u8], word: &[u8]) -> Result<DeskLine, LineFault>
    ensures ok { IfOk result (λ line. call_with session.now word.now ≡ Ok (said_of line)) }
    ensures said { IfOk result IsSaid }
    ensures fault { IfErr result (IsFault (call_with session.now word.now)) }
{
    let session = match session_at(session) {
        Ok(session) => session,
        Err(fault) => return Err(fault),
    };
    match hex_of(alloc, word) {
        Ok(Some(bytes)) => Ok(DeskLine::Call(session, bytes)),
        Ok(None) => Err(LineFault::BadNumber(2)),
        Err(OutOfMemory) => Err(LineFault::OutOfMemory),
    }
}

// A call, by the words behind the first one.
fn call_of(alloc: Global, words: &[&[u8]]) -> Result<DeskLine, LineFault>
    ensures ok { IfOk result (λ line. call_of (map (λ w. w.now) words.now) ≡ Ok (said_of line)) }
    ensures said { IfOk result IsSaid }
    ensures fault { IfErr result (IsFault (call_of (map (λ w. w.now) words.now))) }
{
    let [session, word] = words else {
        return Err(LineFault::WrongCount);
    };
    call_with(alloc, session, word)
}

// The words of a line, which blanks separate.
fn words_of(alloc: Global, line: &[u8]) -> Result<Vec<&[u8]>, OutOfMemory>
    ensures { IfOk result (λ words. map (λ w. w.now) words.items ≡ words_of line.now) }
{
    Ok(
        line.split(|byte| *byte == b' ')
            .filter(|word| !word.is_empty())
            .collect(alloc)?,
    )
}

/// What a line of a desk says; it has no newline. `submit` is read as in a schedule; of `call C HEX` the count of words is tested first, then
/// the session, and then the digits. Any other first word is unknown.
pub fn read_line(alloc: Global, line: &[u8]) -> Result<DeskLine, LineFault>
    ensures ok { IfOk result (λ said. desk_event line.now ≡ Ok (said_of said)) }
    ensures said { IfOk result IsSaid }
    ensures fault { IfErr result (IsFault (desk_event line.now)) }
{
    let words = match words_of(alloc, line) {
        Ok(words) => words,
        Err(OutOfMemory) => return Err(LineFault::OutOfMemory),
    };
    let [word, behind @ ..] = words.as_slice() else {
        return Err(LineFault::UnknownWord);
    };
    if *word == b"call".as_slice() {
        return call_of(alloc, behind);
    }
    if *word == b"submit".as_slice() {
        return read_submit(alloc, line);
    }
    Err(LineFault::UnknownWord)
}

// A submission, as in a schedule.
fn read_submit(alloc: Global, line: &[u8]) -> Result<DeskLine, LineFault>
    ensures ok { IfOk result (λ said. submits (event_of line.now) ≡ Ok (said_of said)) }
    ensures said { IfOk result IsSaid }
    ensures fault { IfErr result (IsFault (submits (event_of line.now))) }
{
    match read_event(alloc, line) {
        Ok(event) => Ok(DeskLine::Submit(event)),
        Err(fault) => Err(fault),
    }
}
