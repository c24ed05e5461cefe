//! Calls of the four ledgers.

use crate::channels::telling::Told;
use golden_lines::Piece::{Number, Text, Truth};
use golden_lines::{Stop, say_line};
use ledger_law::{BodyFault, Ledger};
use party_ledgers::{Demand, Grants, JoinLedger, RowLedger};
use std::alloc::Global;

// Which form a body is of.
#[derive(Clone, Copy, PartialEq, Eq)]
enum Form {
    Full,
    Delta,
}

// What is written of the value that is read.
fn rewritten<L: Ledger>(alloc: Global, form: Form, body: &[u8]) -> Result<Vec<u8>, BodyFault> {
    let mut out = Vec::new(alloc);
    match form {
        Form::Full => L::read_full(alloc, body)?.write_full(&mut out)?,
        Form::Delta => L::write_delta(&L::read_delta(alloc, body)?, &mut out)?,
    }
    Ok(out)
}

// Prints whether the body is read, and the same is written of what was read.
fn read<L: Ledger>(rt: &HostRuntime, alloc: Global, form: Form, body: &[u8]) -> Result<(), Stop> {
    match rewritten::<L>(alloc, form, body) {
        Ok(bytes) if bytes.as_slice() == body => say_line(
            rt,
            &[Number(body.len() as u64), Text(" bytes read back")],
        )?,
        Ok(_) => say_line(rt, &[Text("another body is written")])?,
        Err(BodyFault::NotBody) => say_line(rt, &[Text("no body")])?,
        Err(BodyFault::OutOfMemory) => return Err(Stop::OutOfMemory),
    }
    Ok(())
}

// Prints how many of the body's proper prefixes are read, and whether it is with one byte more.
fn cut<L: Ledger>(rt: &HostRuntime, alloc: Global, form: Form, body: &[u8]) -> Result<(), Stop> {
    let some = (0..body.len())
        .filter(|end| rewritten::<L>(alloc, form, &body[..*end]).is_ok())
        .count();
    let mut more = Vec::from_slice(alloc, body)?;
    more.push(0)?;
    let longer = rewritten::<L>(alloc, form, &more).is_ok();
    say_line(
        rt,
        &[
            Number(some as u64),
            Text(" of "),
            Number(body.len() as u64),
            Text(" prefixes read, with one byte more "),
            Truth(longer),
        ],
    )?;
    Ok(())
}

// Reads a ledger, and keeps it.
fn set<L: Told>(rt: &HostRuntime, alloc: Global, kept: &mut L, body: &[u8]) -> Result<(), Stop> {
    match L::read_full(alloc, body) {
        Ok(ledger) => {
            *kept = ledger;
            kept.tell(rt)
        }
        Err(BodyFault::NotBody) => say_line(rt, &[Text("no body")]),
        Err(BodyFault::OutOfMemory) => Err(Stop::OutOfMemory),
    }
}

// Reads a change, and makes it.
fn apply<L: Told>(rt: &HostRuntime, alloc: Global, kept: &mut L, body: &[u8]) -> Result<(), Stop> {
    match L::read_delta(alloc, body) {
        Ok(change) => {
            if let Err(fault) = kept.apply(alloc, &change) {
                println!(rt; "{fault:?}")?;
            }
            kept.tell(rt)
        }
        Err(BodyFault::NotBody) => say_line(rt, &[Text("no body")]),
        Err(BodyFault::OutOfMemory) => Err(Stop::OutOfMemory),
    }
}

fn call<L: Told>(
    rt: &HostRuntime,
    alloc: Global,
    kept: &mut L,
    call: &str,
    body: &[u8],
) -> Result<(), Stop> {
    match call {
        "full" => read::<L>(rt, alloc, Form::Full, body),
        "delta" => read::<L>(rt, alloc, Form::Delta, body),
        "cut-full" => cut::<L>(rt, alloc, Form::Full, body),
        "cut-delta" => cut::<L>(rt, alloc, Form::Delta, body),
        "set" => set(rt, alloc, kept, body),
        "apply" => apply(rt, alloc, kept, body),
        _ => say_line(rt, &[Text("?")]),
    }
}

/// One ledger of each kind.
#[derive(Drop)]
pub struct Ledgers {
    row: RowLedger,
    report: JoinLedger,
    grants: Grants,
    demand: Demand,
}

impl Ledgers {
    /// Ledgers with no entry.
    pub fn new(alloc: Global) -> Ledgers {
        Ledgers {
            row: RowLedger::empty(alloc),
            report: JoinLedger::empty(alloc),
            grants: Grants::empty(alloc),
            demand: Demand::empty(alloc),
        }
    }

    /// Prints what a call of the ledger of a kind answers.
    pub fn answer(
        &mut self,
        rt: &HostRuntime,
        alloc: Global,
        kind: &str,
        name: &str,
        body: &[u8],
    ) -> Result<(), Stop> {
        match kind {
            "row" => call(rt, alloc, &mut self.row, name, body),
            "report" => call(rt, alloc, &mut self.report, name, body),
            "grants" => call(rt, alloc, &mut self.grants, name, body),
            "demand" => call(rt, alloc, &mut self.demand, name, body),
            _ => say_line(rt, &[Text("?")]),
        }
    }
}
