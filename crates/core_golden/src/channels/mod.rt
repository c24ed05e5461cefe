//! Ledgers, channels, packets, frames and streams of frames.

mod frames;
mod ledgers;
mod packets;
mod parties;
mod streams;
mod telling;

use golden_lines::Piece::Text;
use golden_lines::{Cases, Stop, bytes_of, say_line};
use ledgers::Ledgers;
use parties::Parties;
use std::alloc::Global;
use wire_frames::Stream;

// A call of frames, of the stream or of a ledger, with its bytes.
fn answer_bytes(
    rt: &HostRuntime,
    alloc: Global,
    ledgers: &mut Ledgers,
    stream: &mut Stream,
    call: &[&str],
    bytes: &[u8],
) -> Result<(), Stop> {
    match call {
        ["read"] => frames::read(rt, alloc, bytes),
        ["cut"] => frames::cut(rt, alloc, bytes),
        ["single"] => streams::single(rt, alloc, bytes),
        ["feed"] => Ok(stream.feed(bytes)?),
        [kind, name] => ledgers.answer(rt, alloc, kind, name, bytes),
        _ => say_line(rt, &[Text("?")]),
    }
}

// What words name that say bytes behind a call of so many words.
fn answer_words(
    rt: &HostRuntime,
    alloc: Global,
    ledgers: &mut Ledgers,
    stream: &mut Stream,
    (call, words): (&[&str], &[&str]),
) -> Result<(), Stop> {
    match bytes_of(alloc, words)? {
        Some(bytes) => answer_bytes(rt, alloc, ledgers, stream, call, &bytes),
        None => say_line(rt, &[Text("?")]),
    }
}

// What words name.
fn answer(
    rt: &HostRuntime,
    alloc: Global,
    ledgers: &mut Ledgers,
    parties: &mut Parties,
    stream: &mut Stream,
    words: &[&str],
) -> Result<(), Stop> {
    match words {
        ["new"] => {
            *stream = Stream::new(alloc);
            Ok(())
        }
        ["pull"] => streams::pull(rt, stream),
        ["near" | "far", ..] => parties.answer(rt, alloc, words),
        ["packet", rest @ ..] => packets::answer(rt, alloc, rest),
        ["read" | "cut" | "single" | "feed", ..] => answer_words(
            rt,
            alloc,
            ledgers,
            stream,
            words.split_at(1),
        ),
        [_, _, ..] => answer_words(rt, alloc, ledgers, stream, words.split_at(2)),
        _ => say_line(rt, &[Text("?")]),
    }
}

/// The ledgers, the parties and the stream that the lines speak of.
#[derive(Drop)]
pub struct Channels {
    ledgers: Ledgers,
    parties: Parties,
    stream: Stream,
}

impl Cases for Channels {
    fn start(alloc: Global) -> Result<Channels, Stop> {
        Ok(Channels {
            ledgers: Ledgers::new(alloc),
            parties: Parties::new(alloc)?,
            stream: Stream::new(alloc),
        })
    }

    fn answer_line(&mut self, rt: &HostRuntime, alloc: Global, line: &str) -> Result<(), Stop> {
        if line.is_empty() || line.starts_with('#') {
            return say_line(rt, &[Text(line)]);
        }
        let words: Vec<&str> = line.split_whitespace().collect(alloc)?;
        answer(
            rt,
            alloc,
            &mut self.ledgers,
            &mut self.parties,
            &mut self.stream,
            &words,
        )
    }
}
