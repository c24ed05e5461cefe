//! The program: the words of its command line, over standard input, output and error, the file of a master or a lease, and TCP.
#![tactic(auto)]

use fuxi_command::{exit_of, file_of, run, words_of};
use fuxi_io::{FileDisk, StdSink, StdSource, TcpDoor};
use std::env;
use std::fs::File;
use std::os::fd::AsRawFd;
use std::process::ExitCode;

// Whether the file is none of the three streams. A stream that was closed at the start leaves its number to the next file that is opened.
fn is_apart(file: &File) -> bool {
    file.as_raw_fd() > 2
}

// What is opened in place of a stream that was closed: it gives no byte, and takes none, since it is open for reading alone.
fn open_nothing(rt: &HostRuntime) -> Option<File> {
    let nothing = File::open(rt, "/dev/null").ok()?;
    if is_apart(&nothing) {
        None
    } else {
        Some(nothing)
    }
}

// The file at the path, made where there is none, for this process alone: it is locked for as long as it is open. A file without a byte may
// be new, and its folder has it for good only once that is synced.
fn open_alone(rt: &HostRuntime, path: &str) -> Option<File> {
    let file = File::options()
        .read(true)
        .write(true)
        .create(true)
        .open(rt, path)
        .ok()?;
    if !is_apart(&file) || file.try_lock().is_err() {
        return None;
    }
    if file.metadata().ok()?.len() == 0 {
        File::open(rt, ".").ok()?.sync_all().ok()?;
    }
    Some(file)
}

fn main(rt: HostRuntime) -> ExitCode {
    let _streams = [open_nothing(&rt), open_nothing(&rt), open_nothing(&rt)];
    let words = words_of(rt.alloc(), env::args(&rt));
    let file = match file_of(&words) {
        Some(name) => open_alone(&rt, name),
        None => None,
    };
    let mut input = StdSource::of(rt.stdin());
    let mut out = StdSink::of(rt.stdout());
    let mut err = StdSink::of(rt.stderr());
    exit_of(&run(
        rt.alloc(),
        words,
        &mut input,
        &mut out,
        &mut err,
        &mut FileDisk::of(file),
        &mut TcpDoor::of(&rt),
    ))
}
