use fuxi_io::{Failed, Got, LineReader, MemSource, Source};
use golden_lines::Piece::Text;
use golden_lines::{Stop, head_of, number_of, numbers_of, push_text, say, say_line, text_of};
use std::alloc::Global;

// A source that gives one byte at each read.
#[derive(Drop)]
struct Drops {
    bytes: Vec<u8>,
    at: usize,
}

impl Source for Drops {
    ghost use Rattle.std.specs.Prelude.{None};

    ghost left = { λ s. None };

    ghost faults = { λ s. 0 };

    fn read(&mut self, buf: &mut [u8]) -> Result<usize, Failed> {
        if self.at >= self.bytes.len() {
            return Ok(0);
        }
        buf[0] = self.bytes[self.at];
        self.at += 1;
        Ok(1)
    }
}

// Prints a line, if it is one of the first ones and short.
fn tell_line(rt: &HostRuntime, alloc: Global, reader: &LineReader) -> Result<(), Stop> {
    if reader.number() < 10 && reader.line().len() < 100 {
        let mark = if reader.ended() { "" } else { " unended" };
        let line = text_of(alloc, reader.line())?;
        say(
            rt,
            &[Text("["), Text(&line), Text("]"), Text(mark), Text(" ")],
        )?;
    }
    Ok(())
}

// Prints what the reader gives, and then its answer twice.
fn read_to_end<S: Source>(
    rt: &HostRuntime,
    alloc: Global,
    source: &mut S,
    reader: &mut LineReader,
) -> Result<(), Stop> {
    for _ in 0..1_000_001 {
        match reader.next(source) {
            Ok(Got::Line) => tell_line(rt, alloc, reader)?,
            _ => break,
        }
    }
    let (last, again) = (reader.next(source), reader.next(source));
    print!(rt;
        "{last:?} {again:?} after {}, {} bytes, {}",
        reader.number(),
        reader.line().len(),
        reader.stopped()
    )?;
    Ok(())
}

/// Prints the lines of a source, and then the reader's last answer twice; it ends no line.
pub fn read_all<S: Source>(rt: &HostRuntime, alloc: Global, source: &mut S) -> Result<(), Stop> {
    let mut reader = LineReader::new(alloc)?;
    read_to_end(rt, alloc, source, &mut reader)
}

/// Prints the lines of a text, where the call with this number fails; 0 for none.
pub fn lines(rt: &HostRuntime, alloc: Global, rest: &str) -> Result<(), Stop> {
    let (fails, text) = head_of(rest);
    let mut bytes = Vec::new(alloc);
    push_text(&mut bytes, text)?;
    let mut source = MemSource::of(bytes, numbers_of(alloc, fails)?);
    read_all(rt, alloc, &mut source)?;
    say_line(rt, &[])
}

/// The same where each read gives one byte.
pub fn byte_by_byte(rt: &HostRuntime, alloc: Global, text: &str) -> Result<(), Stop> {
    let mut source = Drops {
        bytes: Vec::new(alloc),
        at: 0,
    };
    push_text(&mut source.bytes, text)?;
    read_all(rt, alloc, &mut source)?;
    say_line(rt, &[])
}

/// Prints the lines of so many of this byte and a text behind them.
pub fn repeated(rt: &HostRuntime, alloc: Global, byte: u8, rest: &str) -> Result<(), Stop> {
    let (count, behind) = head_of(rest);
    let mut bytes = vec![in alloc; byte; number_of(count).min(2_000_000) as usize]?;
    push_text(&mut bytes, behind)?;
    let mut source = MemSource::of(bytes, Vec::new(alloc));
    read_all(rt, alloc, &mut source)?;
    say_line(rt, &[])
}
