use crate::base::reading::read_all;
use fuxi_io::{MemSink, Sink, StdSink, StdSource, write_all_of};
use golden_lines::Piece::Text;
use golden_lines::{Stop, head_of, numbers_of, push_text, say, say_line, text_of};
use std::alloc::Global;
use std::io;
use std::io::{Read, Write};

// A reader and writer that gives and takes two bytes, and fails from then on.
#[derive(Drop)]
struct Breaking {
    works: bool,
}

impl Read for Breaking {
    fn read(&mut self, buf: &mut [u8]) -> io::Result<usize> {
        if self.works && buf.len() >= 2 {
            self.works = false;
            buf[0] = b'a';
            buf[1] = b'\n';
            return Ok(2);
        }
        Err(io::Error::from(io::ErrorKind::BrokenPipe))
    }
}

impl Write for Breaking {
    fn write(&mut self, buf: &[u8]) -> io::Result<usize> {
        if self.works {
            self.works = false;
            return Ok(buf.len().min(2));
        }
        Err(io::Error::from(io::ErrorKind::BrokenPipe))
    }

    fn flush(&mut self) -> io::Result<()> {
        Ok(())
    }
}

// Writes words one after another, and prints each answer.
fn write_words<O: Sink>(rt: &HostRuntime, out: &mut O, words: &str) -> Result<(), Stop> {
    for word in words.split(' ') {
        match write_all_of(out, word.as_bytes()) {
            Ok(()) => say(rt, &[Text("ok ")])?,
            Err(_) => say(rt, &[Text("fault ")])?,
        }
    }
    Ok(())
}

// Writes words into a sink that is given so much room, and prints what it took.
fn write_into(
    rt: &HostRuntime,
    alloc: Global,
    sink: &mut MemSink,
    room: &str,
    words: &str,
) -> Result<(), Stop> {
    let room = sink.room(room.parse().unwrap_or(0));
    write_words(rt, sink, words)?;
    let took = text_of(alloc, sink.bytes())?;
    println!(rt; "took [{took}] room {room:?}")?;
    Ok(())
}

/// Prints the answers of writing words into a sink with so much room, of whose calls these fail: `ROOM / FAILS / WORDS`.
pub fn write(rt: &HostRuntime, alloc: Global, rest: &str) -> Result<(), Stop> {
    let (room, rest) = rest.split_once(" / ").unwrap_or((rest, ""));
    let (fails, words) = rest.split_once(" / ").unwrap_or((rest, ""));
    let mut sink = MemSink::of(alloc, numbers_of(alloc, fails)?);
    write_into(rt, alloc, &mut sink, room, words)
}

// A source over a slice.
fn over_memory(rt: &HostRuntime, alloc: Global, text: &str) -> Result<(), Stop> {
    let mut bytes = Vec::new(alloc);
    push_text(&mut bytes, text)?;
    read_all(rt, alloc, &mut StdSource::of(bytes.as_slice()))
}

// A source and sinks that fail, or are full.
fn over_breaking(rt: &HostRuntime, alloc: Global, words: &str) -> Result<(), Stop> {
    read_all(rt, alloc, &mut StdSource::of(Breaking { works: true }))?;
    say(rt, &[Text("; ")])?;
    write_words(rt, &mut StdSink::of(Breaking { works: true }), words)?;
    say(rt, &[Text("; ")])?;
    let mut full = [0; 3];
    write_words(rt, &mut StdSink::of(full.as_mut_slice()), words)
}

/// Prints the answers of adapters over a reader and writers of std: `memory` over a slice, `breaking` over ones that fail.
pub fn adapters(rt: &HostRuntime, alloc: Global, rest: &str) -> Result<(), Stop> {
    let (over, words) = head_of(rest);
    match over {
        "memory" => over_memory(rt, alloc, words)?,
        _ => over_breaking(rt, alloc, words)?,
    }
    say_line(rt, &[])
}
