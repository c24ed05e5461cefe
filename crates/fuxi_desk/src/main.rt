//! The program: many sessions at once on one master, over standard input, output and error.
#![tactic(auto)]

mod prepare;
mod read;
mod run;
mod text;
mod top;

ghost use Rattle.std.specs.Prelude.{◌≡◌, IfOk, IfErr};
ghost use Rattle.std.specs.Process.{exit_status};
ghost use Rattle.fuxi_io.specs.Statuses.{code_of};
ghost use Rattle.fuxi_desk.specs.DeskWords.{HasDeskWords, NoDeskWords, WhyNoDeskWords};

use fuxi_io::{Status, StdSink, StdSource};
use master_desk::OpenGate;
use std::alloc::Global;
use std::env::Args;
use std::io::ErrorKind;
use std::process::ExitCode;
use std::{env, io};
use top::{desk, untold};

// The status where the arguments cannot be read: one that is no text is a word, and there are to be none.
fn unread(kind: ErrorKind) -> Status
    ensures { NoDeskWords kind result }
{
    if kind == ErrorKind::OutOfMemory {
        Status::OutOfMemory
    } else {
        Status::Usage
    }
}

// The words behind the name of the program, or the status where they cannot be had: `Usage` where a word is no text, and else `OutOfMemory`.
fn words_of(alloc: Global, args: io::Result<Args>) -> Result<Vec<String>, Status>
    ensures ok { IfOk result (λ words. HasDeskWords args words.items) }
    ensures err { IfErr result (λ status. WhyNoDeskWords args status) }
{
    let mut args = match args {
        Ok(args) => args,
        Err(error) => return Err(unread(error.kind())),
    };
    let _name = args.next();
    let mut words = Vec::new(alloc);
    while let Some(word) = args.next() {
        if words.push(word).is_err() {
            return Err(Status::OutOfMemory);
        }
    }
    Ok(words)
}

// The number with which the program ends.
fn exit_of(status: &Status) -> ExitCode
    ensures { exit_status result ≡ code_of status.now }
{
    ExitCode::from(status.code())
}

fn main(rt: HostRuntime) -> ExitCode {
    let mut input = StdSource::of(rt.stdin());
    let mut out = StdSink::of(rt.stdout());
    let mut err = StdSink::of(rt.stderr());
    let status = match words_of(rt.alloc(), env::args(&rt)) {
        Ok(words) => desk(
            &rt,
            rt.alloc(),
            &words,
            &mut input,
            &mut out,
            &mut err,
            &OpenGate,
        ),
        Err(status) => untold(&mut err, status),
    };
    exit_of(&status)
}
