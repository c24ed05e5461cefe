//! Ledgers and changes, printed.

use golden_lines::Piece::{Number, Signed, Text};
use golden_lines::{Stop, say_line};
use ledger_law::{Change, Ledger, Shape, Tally};
use party_ledgers::{JoinLedger, RowLedger};

/// A ledger that can be printed.
pub trait Told: Ledger {
    /// Prints what it has.
    fn tell(&self, rt: &HostRuntime) -> Result<(), Stop>;
}

impl<S: Shape> Told for Tally<S> {
    fn tell(&self, rt: &HostRuntime) -> Result<(), Stop> {
        say_line(rt, &[Text("  head "), Number(self.head())])?;
        for (key, number) in self.entries() {
            say_line(
                rt,
                &[
                    Text("  "),
                    Number(key.what as u64),
                    Text(" "),
                    Number(key.unit as u64),
                    Text(" "),
                    Number(key.number as u64),
                    Text(": "),
                    Number(*number),
                ],
            )?;
        }
        Ok(())
    }
}

impl Told for RowLedger {
    fn tell(&self, rt: &HostRuntime) -> Result<(), Stop> {
        tell_entries(rt, self)?;
        println!(rt; "  {} entries, total {:?}", self.len(), self.total().q)?;
        Ok(())
    }
}

impl Told for JoinLedger {
    fn tell(&self, rt: &HostRuntime) -> Result<(), Stop> {
        say_line(rt, &[Text("  epoch "), Number(self.epoch())])?;
        self.table().tell(rt)
    }
}

/// Prints the first entries of a row.
pub fn tell_entries(rt: &HostRuntime, row: &RowLedger) -> Result<(), Stop> {
    for index in 0..row.len().min(4) {
        let entry = row.at(index);
        println!(rt;
            "  {} {} {:?}: {}",
            entry.app.0, entry.unit.0, entry.size.q, entry.count
        )?;
    }
    Ok(())
}

/// Prints a change of a tally.
pub fn tell_change(rt: &HostRuntime, change: &Change) -> Result<(), Stop> {
    say_line(rt, &[Text("  head "), Number(change.head())])?;
    for (key, number) in change.entries() {
        say_line(
            rt,
            &[
                Text("  "),
                Number(key.what as u64),
                Text(" "),
                Number(key.unit as u64),
                Text(" "),
                Number(key.number as u64),
                Text(": "),
                Signed(*number),
            ],
        )?;
    }
    Ok(())
}
