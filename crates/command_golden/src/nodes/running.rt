//! Runs of nodes.

use crate::nodes::settings::{Setting, connections_of, file_of, setting_of};
use crate::nodes::watched::Watched;
use fuxi_io::{MemDisk, MemSink, MemSource, Status};
use golden_lines::Piece::{Number, Text};
use golden_lines::{Stop, push_text, say, say_line, text_of};
use std::alloc::Global;

const CLUSTER: &str =
    "{\"resources\":2,\"machines\":[{\"rack\":0,\"has\":[400,1000]}],\"groups\":[{\"quota\":[400,1000],\"limit\":[400,1000]}]}\n";

// The most calls of which one is to fail.
const MOST: u64 = 1000;

// The greatest number of bytes that are printed.
const MOST_SHOWN: usize = 250;

// What came of a run: its status, and how many calls of the door failed.
#[derive(Drop)]
struct Ran {
    status: Status,
    faults: u64,
}

// The input: the text behind the line of the cluster, which `~` before it leaves out, and a lease has none; a call of this number fails.
fn source_of(alloc: Global, setting: &Setting, text: &str) -> Result<MemSource, Stop> {
    let (cluster, text) = match text.split_once('~') {
        Some(("", text)) => ("", text),
        _ if setting.is_lease() => ("", text),
        _ => (CLUSTER, text),
    };
    let mut bytes = Vec::from_slice(alloc, cluster.as_bytes())?;
    push_text(&mut bytes, text)?;
    Ok(MemSource::of(bytes, Vec::from_slice(alloc, &[setting.source])?))
}

// A disk with this file, and of whose calls one fails.
fn disk_of(alloc: Global, file: Vec<u8>, fail: u64) -> Result<MemDisk, Stop> {
    let mut disk = MemDisk::of(alloc, file, Vec::from_slice(alloc, &[fail])?);
    disk.room(100_000)?;
    Ok(disk)
}

fn sink_of(alloc: Global, fail: u64) -> Result<MemSink, Stop> {
    let mut sink = MemSink::of(alloc, Vec::from_slice(alloc, &[fail])?);
    sink.room(1_000_000)?;
    Ok(sink)
}

// The words of the command: `node`, those of the node, and the address; of a lease its own.
fn words_of(alloc: Global, setting: &Setting) -> Result<Vec<String>, Stop> {
    let mut words = Vec::new(alloc);
    if setting.is_lease() {
        words.push(String::from_str(alloc, setting.node)?)?;
        return Ok(words);
    }
    words.push(String::from_str(alloc, "node")?)?;
    for word in setting.node.split(':') {
        words.push(String::from_str(alloc, word)?)?;
    }
    words.push(String::from_str(alloc, setting.addr)?)?;
    Ok(words)
}

// Prints a number of bytes, and the bytes where they are few.
fn tell_bytes(rt: &HostRuntime, alloc: Global, bytes: &[u8]) -> Result<(), Stop> {
    say(rt, &[Text(" "), Number(bytes.len() as u64)])?;
    if bytes.len() <= MOST_SHOWN {
        say(rt, &[Text(":"), Text(&hex::encode(alloc, bytes)?)])?;
    }
    Ok(())
}

// Prints the line that tells of a status, behind a blank and without its newline; nothing where there is none.
fn tell_report(rt: &HostRuntime, alloc: Global, report: &[u8]) -> Result<(), Stop> {
    match report {
        [] => Ok(()),
        [line @ .., b'\n'] => say(rt, &[Text(" "), Text(&text_of(alloc, line)?)]),
        line => say(rt, &[Text(" "), Text(&text_of(alloc, line)?)]),
    }
}

// Prints how many calls of the door failed, its last address, and what its connections took.
fn tell_door(rt: &HostRuntime, alloc: Global, door: &Watched) -> Result<(), Stop> {
    let addr = text_of(alloc, &door.seen.addr)?;
    say(
        rt,
        &[
            Text(" "),
            Number(door.faults),
            Text(" <"),
            Text(&addr),
            Text(">"),
        ],
    )?;
    for took in &door.seen.took {
        tell_bytes(rt, alloc, took)?;
    }
    Ok(())
}

// Runs a node over a door and a disk, and prints its status with the line that tells of it, and its text.
fn run_over(
    rt: &HostRuntime,
    alloc: Global,
    setting: &Setting,
    text: &str,
    (disk, door): (&mut MemDisk, &mut Watched),
) -> Result<Status, Stop> {
    let words = words_of(alloc, setting)?;
    let mut source = source_of(alloc, setting, text)?;
    let (mut out, mut err) = (sink_of(alloc, setting.sink)?, sink_of(alloc, 0)?);
    let status = fuxi_command::run(
        alloc,
        Ok(words),
        &mut source,
        &mut out,
        &mut err,
        disk,
        door,
    );
    say(rt, &[Number(status.code() as u64)])?;
    tell_report(rt, alloc, err.bytes())?;
    say(
        rt,
        &[Text(" ["), Text(&text_of(alloc, out.bytes())?), Text("]")],
    )?;
    Ok(status)
}

// Runs a node over what its connections give and what its file has, and prints what came of it.
fn run_with(
    rt: &HostRuntime,
    alloc: Global,
    setting: &Setting,
    text: &str,
    (gives, file): (Vec<Vec<u8>>, Vec<u8>),
) -> Result<Ran, Stop> {
    let mut door = Watched::of(alloc, gives, setting.door)?;
    let mut disk = disk_of(alloc, file, setting.disk)?;
    let status = run_over(rt, alloc, setting, text, (&mut disk, &mut door))?;
    tell_door(rt, alloc, &door)?;
    if setting.has_file() {
        say(rt, &[Text(" file")])?;
        tell_bytes(rt, alloc, disk.bytes())?;
    }
    say_line(rt, &[])?;
    Ok(Ran {
        status,
        faults: door.faults,
    })
}

// Runs a case; None where its words stand for none.
fn run(
    rt: &HostRuntime,
    alloc: Global,
    setting: &Setting,
    connections: &[&str],
    text: &str,
) -> Result<Option<Ran>, Stop> {
    let gives = connections_of(alloc, connections)?;
    match (gives, file_of(alloc, setting.file)?) {
        (Some(gives), Some(file)) => {
            Ok(Some(run_with(rt, alloc, setting, text, (gives, file))?))
        }
        _ => {
            say_line(rt, &[Text("no such case")])?;
            Ok(None)
        }
    }
}

/// A case.
pub fn once(rt: &HostRuntime, alloc: Global, words: &[&str], text: &str) -> Result<(), Stop> {
    match setting_of(words) {
        Some((setting, connections)) => {
            run(rt, alloc, &setting, connections, text)?;
            Ok(())
        }
        None => say_line(rt, &[Text("no such case")]),
    }
}

// Whether the call failed that was to fail.
fn has_failed(what: &str, ran: &Ran) -> bool {
    match what {
        "door" => ran.faults > 0,
        "sink" => ran.status == Status::WriteFault,
        "disk" => ran.status == Status::DiskFault,
        _ => ran.status == Status::ReadFault,
    }
}

/// A case where the first call of the door, the sink, the disk or the source fails, the second, and so on, until none fails: each
/// in a line, behind the number of the call.
pub fn each(
    rt: &HostRuntime,
    alloc: Global,
    what: &str,
    words: &[&str],
    text: &str,
) -> Result<(), Stop> {
    let Some((setting, connections)) = setting_of(words) else {
        return say_line(rt, &[Text("no such case")]);
    };
    for call in 1..=MOST {
        say(rt, &[Number(call as u64), Text(" ")])?;
        let mut now = setting;
        now.fail(what, call);
        match run(rt, alloc, &now, connections, text)? {
            Some(ran) if has_failed(what, &ran) => {}
            _ => break,
        }
    }
    Ok(())
}

// Runs a case over a disk that serves so many writes and syncs, and behind it what a crash leaves, with all that was written and with what was
// synced alone: each is opened by a run without lines.
fn run_stopped(
    rt: &HostRuntime,
    alloc: Global,
    setting: &Setting,
    text: &str,
    calls: u64,
) -> Result<Option<Status>, Stop> {
    let Some(file) = file_of(alloc, setting.file)? else {
        return Ok(None);
    };
    let mut disk = disk_of(alloc, file, 0)?;
    disk.stop_after(calls);
    let mut door = Watched::of(alloc, Vec::new(alloc), 0)?;
    let status = run_over(rt, alloc, setting, text, (&mut disk, &mut door))?;
    for (word, all) in [(" all ", true), (" synced ", false)] {
        say(rt, &[Text(word)])?;
        let mut image = disk.image(alloc, all)?;
        image.room(100)?;
        run_over(rt, alloc, setting, "", (&mut image, &mut door))?;
    }
    say_line(rt, &[])?;
    Ok(Some(status))
}

/// A case without connections where the disk serves no write and no sync, one, and so on, until it serves all: each in a line, behind the number of
/// those that it serves, with what is found behind a crash.
pub fn stops(rt: &HostRuntime, alloc: Global, words: &[&str], text: &str) -> Result<(), Stop> {
    let Some((setting, [])) = setting_of(words) else {
        return say_line(rt, &[Text("no such case")]);
    };
    for calls in 0..MOST {
        say(rt, &[Number(calls as u64), Text(" ")])?;
        if run_stopped(rt, alloc, &setting, text, calls)? != Some(Status::DiskFault) {
            break;
        }
    }
    Ok(())
}
