use crate::commands::edges::{Drops, Narrow};
use fuxi_io::{MemDisk, MemDoor, MemSink, MemSource, Sink, Source, Status};
use golden_lines::Piece::{Number, Text};
use golden_lines::{Stop, head_of, number_of, push_text, put_numbers, say, text_of};
use std::alloc::Global;

pub const CLUSTER: &str =
    "{\"resources\":2,\"machines\":[{\"rack\":0,\"has\":[400,1000]}],\"groups\":[{\"quota\":[400,1000],\"limit\":[400,1000]}]}\n";

// An application whose master has acknowledged its first demand.
const KNOWN: &str =
    "$master 1|agent 0 1|submit 1 0 0 5 100 250|app 0 1|turn master 1|deliver 2|turn app 0|deliver 3 4|turn master 1|deliver 5 7|";

// The most reads, writes or bytes of a case.
const MOST: u64 = 1000;

// The bytes of a text, in which `$` is the line of a cluster.
fn bytes_of(alloc: Global, text: &str) -> Result<Vec<u8>, Stop> {
    let mut bytes = Vec::new(alloc);
    let mut parts = text.split('$');
    push_text(&mut bytes, parts.next().unwrap_or(""))?;
    for part in parts {
        bytes.extend_from_slice(CLUSTER.as_bytes())?;
        push_text(&mut bytes, part)?;
    }
    Ok(bytes)
}

// A sink with room, of whose calls one fails; 0 for none.
fn sink(alloc: Global, fail: u64) -> Result<MemSink, Stop> {
    let mut sink = MemSink::of(alloc, Vec::from_slice(alloc, &[fail])?);
    let _room = sink.room(1_000_000);
    Ok(sink)
}

fn source(alloc: Global, bytes: Vec<u8>, fail: u64) -> Result<MemSource, Stop> {
    Ok(MemSource::of(bytes, Vec::from_slice(alloc, &[fail])?))
}

fn words_of(alloc: Global, words: &[&str]) -> Result<Vec<String>, Stop> {
    let mut own = Vec::new(alloc);
    for word in words {
        own.push(String::from_str(alloc, word)?)?;
    }
    Ok(own)
}

// Runs a command that is no node: its disk and its door would fail.
fn command<S: Source, O: Sink, E: Sink>(
    alloc: Global,
    words: &[&str],
    input: &mut S,
    out: &mut O,
    err: &mut E,
) -> Result<Status, Stop> {
    let words = words_of(alloc, words)?;
    let mut disk = MemDisk::of(alloc, Vec::new(alloc), Vec::from_slice(alloc, &[1])?);
    let mut door = MemDoor::of(alloc, Vec::new(alloc), Vec::from_slice(alloc, &[1])?);
    Ok(fuxi_command::run(alloc, Ok(words), input, out, err, &mut disk, &mut door))
}

// The number of a status, the output and the error stream.
fn shown(alloc: Global, status: &Status, out: &[u8], err: &[u8]) -> Result<String, Stop> {
    let (out, err) = (text_of(alloc, out)?, text_of(alloc, err)?);
    let code = status.code();
    Ok(format!(in alloc; "{code} [{out}] [{err}]")?)
}

// Runs a command over streams in memory, of which one write fails each, and prints what came of it.
fn tell(
    rt: &HostRuntime,
    alloc: Global,
    words: &[&str],
    input: &mut MemSource,
    fails: [u64; 2],
) -> Result<(), Stop> {
    let (mut out, mut err) = (sink(alloc, fails[0])?, sink(alloc, fails[1])?);
    let status = command(alloc, words, input, &mut out, &mut err)?;
    say(
        rt,
        &[Text(&shown(alloc, &status, out.bytes(), err.bytes())?)],
    )
}

// A command of one word over these lines, where a read, a write and a write of the error stream fail.
fn over_lines(
    rt: &HostRuntime,
    alloc: Global,
    name: &str,
    bytes: Vec<u8>,
    fails: [u64; 3],
) -> Result<(), Stop> {
    let [read, write, report] = fails;
    let mut input = source(alloc, bytes, read)?;
    tell(rt, alloc, &[name], &mut input, [write, report])
}

/// A schedule, or lines of another command.
pub fn run(rt: &HostRuntime, alloc: Global, name: &str, text: &str) -> Result<(), Stop> {
    over_lines(rt, alloc, name, bytes_of(alloc, text)?, [0, 0, 0])
}

/// A schedule behind an application whose master has acknowledged its first demand, and so many wants of the numbers from 1 up.
pub fn behind_wants(rt: &HostRuntime, alloc: Global, rest: &str) -> Result<(), Stop> {
    let (count, text) = head_of(rest);
    let mut bytes = bytes_of(alloc, KNOWN)?;
    for number in 1..=number_of(count).min(MOST) {
        bytes.extend_from_slice(format!(in alloc; "want 0 0 {number}\n")?.as_bytes())?;
    }
    bytes.extend_from_slice(&bytes_of(alloc, text)?)?;
    over_lines(rt, alloc, "replay", bytes, [0, 0, 0])
}

/// Words that are no command, `,` between them, over streams whose every call fails but for the error stream's.
pub fn words(rt: &HostRuntime, alloc: Global, rest: &str) -> Result<(), Stop> {
    let words: Vec<&str> = rest.split(',').collect(alloc)?;
    tell(
        rt,
        alloc,
        &words,
        &mut source(alloc, Vec::new(alloc), 1)?,
        [1, 0],
    )
}

/// A storm of the seed and the steps behind the number of the write that fails, 0 for none. Its input fails.
pub fn storm(rt: &HostRuntime, alloc: Global, rest: &str) -> Result<(), Stop> {
    let (fail, rest) = head_of(rest);
    let (seed, steps) = head_of(rest);
    let mut input = source(alloc, Vec::new(alloc), 1)?;
    tell(
        rt,
        alloc,
        &["storm", seed, steps],
        &mut input,
        [number_of(fail), 0],
    )
}

/// Lines of a command where the read, the write and the write of the error stream with these numbers fail; 0 for none.
pub fn failing(rt: &HostRuntime, alloc: Global, name: &str, rest: &str) -> Result<(), Stop> {
    let (numbers, text) = rest.split_once(" = ").unwrap_or((rest, ""));
    let mut fails = [0; 3];
    put_numbers(&mut fails, numbers);
    over_lines(rt, alloc, name, bytes_of(alloc, text)?, fails)
}

// Lines of a command that are read byte by byte, where a read or a write fails: the status, and what is printed of it.
fn read_slowly(
    alloc: Global,
    (name, text): (&str, &str),
    [read, write]: [u64; 2],
) -> Result<(Status, String), Stop> {
    let mut input = Drops {
        bytes: bytes_of(alloc, text)?,
        at: 0,
        fail: read,
        calls: 0,
        faults: 0,
    };
    let (mut out, mut err) = (sink(alloc, write)?, sink(alloc, 0)?);
    let status = command(alloc, &[name], &mut input, &mut out, &mut err)?;
    let told = shown(alloc, &status, out.bytes(), err.bytes())?;
    Ok((status, told))
}

/// Lines of a command that are read byte by byte, where the first read fails, the second, and so on, or the first write:
/// each answer that is another one than that before, with the number of the call.
pub fn each_call(
    rt: &HostRuntime,
    alloc: Global,
    lines: (&str, &str),
    is_write: bool,
) -> Result<(), Stop> {
    let fault = if is_write {
        Status::WriteFault
    } else {
        Status::ReadFault
    };
    let mut last = String::new(alloc);
    for fail in 1..=MOST {
        let fails = if is_write { [0, fail] } else { [fail, 0] };
        let (status, now) = read_slowly(alloc, lines, fails)?;
        if now != last {
            say(
                rt,
                &[
                    Text("from "),
                    Number(fail),
                    Text(" "),
                    Text(&now),
                    Text(" "),
                ],
            )?;
            last = now;
        }
        if status != fault {
            break;
        }
    }
    Ok(())
}

// Runs a command whose output is narrow, or its error stream: the status, and what the other of these took.
fn run_narrow(
    alloc: Global,
    (name, text): (&str, &str),
    is_err: bool,
    narrow: &mut Narrow,
) -> Result<(Status, Vec<u8>), Stop> {
    let (mut input, mut other) = (source(alloc, bytes_of(alloc, text)?, 0)?, sink(alloc, 0)?);
    let status = if is_err {
        command(alloc, &[name], &mut input, &mut other, narrow)?
    } else {
        command(alloc, &[name], &mut input, narrow, &mut other)?
    };
    Ok((status, other.bytes().to_vec(alloc)?))
}

// Prints what a stream does that takes so many bytes, where what it took is not what is wanted, and at both ends.
fn tell_part(
    rt: &HostRuntime,
    alloc: Global,
    lines: (&str, &str),
    is_err: bool,
    (limit, whole): (usize, &[u8]),
) -> Result<(), Stop> {
    let mut narrow = Narrow::of(alloc, limit);
    let (status, other) = run_narrow(alloc, lines, is_err, &mut narrow)?;
    if whole.get(..limit.min(whole.len())) != Some(narrow.took.as_slice()) {
        say(rt, &[Text(" another text at "), Number(limit as u64)])?;
    } else if Some(limit) == whole.len().checked_sub(1) || limit == 0 {
        let text = shown(alloc, &status, b"", &other)?;
        say(
            rt,
            &[Text(" at "), Number(limit as u64), Text(" "), Text(&text)],
        )?;
    }
    Ok(())
}

/// A command whose output takes so many bytes and no more, from more than enough down to none: what it took is
/// the front of the whole text each time, or else it is told. Or the same of the error stream.
pub fn each_write(
    rt: &HostRuntime,
    alloc: Global,
    lines: (&str, &str),
    is_err: bool,
) -> Result<(), Stop> {
    let mut wide = Narrow::of(alloc, MOST as usize);
    let (status, other) = run_narrow(alloc, lines, is_err, &mut wide)?;
    say(rt, &[Text(&shown(alloc, &status, &wide.took, &other)?)])?;
    for limit in (0..MOST as usize).rev() {
        tell_part(rt, alloc, lines, is_err, (limit, &wide.took))?;
    }
    Ok(())
}
