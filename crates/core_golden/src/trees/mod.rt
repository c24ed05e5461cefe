//! The locality tree and placing: what a path gives, which grant is found, and what was compared over tables that are drawn.

mod bench;
mod case;
mod changes;
mod draw;
mod drawn;
mod placing;
mod plain;
mod tables;

use case::Case;
use golden_lines::Piece::Text;
use golden_lines::{Cases, Stop, head_of, number_of, say_line};
use placing::Placing;
use std::alloc::Global;
use std::marker::Brand;
use std::sync::ledger::Blank;
use tables::compare_tables;

// Two numbers of a line.
fn numbers_in(rest: &str) -> (usize, u32) {
    let (first, second) = head_of(rest);
    (
        number_of(first).min(1 << 20) as usize,
        number_of(second).min(1 << 20) as u32,
    )
}

// A call of the tree, where there is one.
fn call(
    rt: &HostRuntime,
    alloc: Global,
    case: &mut Option<Case>,
    word: &str,
    rest: &str,
) -> Result<(), Stop> {
    let Some(case) = case else {
        return Ok(());
    };
    let (index, number) = numbers_in(rest);
    match word {
        "job" => case.admit(alloc, number_of(rest))?,
        "wait" => case.wait(index, true),
        "idle" => case.wait(index, false),
        "near" => case.near(index, number, true),
        "far" => case.near(index, number, false),
        "rack" => case.rack(index, number, true),
        "off" => case.rack(index, number, false),
        _ => case.show(rt, number_of(rest).min(1 << 20) as u32)?,
    }
    Ok(())
}

// The number that a line begins with, and what stands behind it.
fn number_in(rest: &str) -> (u32, &str) {
    let (word, rest) = head_of(rest);
    (number_of(word).min(1 << 20) as u32, rest)
}

// A call of the table and its placer, where there is one.
fn place(
    rt: &HostRuntime,
    alloc: Global,
    placing: &mut Option<Placing>,
    word: &str,
    rest: &str,
) -> Result<(), Stop> {
    let Some(placing) = placing else {
        return Ok(());
    };
    let (first, rest) = number_in(rest);
    match word {
        "ask" => placing.ask(alloc, first, rest)?,
        "take" => placing.take(first, number_in(rest).0),
        "walk" => placing.walk(rt, first)?,
        _ => placing.place::<Brand>(rt, Blank::new(1))?,
    }
    Ok(())
}

/// What the lines so far have made.
#[derive(Drop)]
pub struct Made {
    case: Option<Case>,
    placing: Option<Placing>,
}

impl Cases for Made {
    fn start(_alloc: Global) -> Result<Made, Stop> {
        Ok(Made {
            case: None,
            placing: None,
        })
    }

    fn answer_line(&mut self, rt: &HostRuntime, alloc: Global, line: &str) -> Result<(), Stop> {
        say_line(rt, &[Text(line)])?;
        if line.is_empty() || line.starts_with('#') {
            return Ok(());
        }
        let (word, rest) = head_of(line);
        match word {
            "cluster" => self.case = Case::start(alloc, rest.as_bytes())?,
            "table" => self.placing = Placing::start(alloc, rest)?,
            "tables" => {
                let (first, count) = head_of(rest);
                let seeds = (number_of(first), number_of(count).min(1000));
                compare_tables::<Brand>(rt, alloc, seeds, Blank::new(1))?;
            }
            "ask" | "place" | "take" | "walk" => place(rt, alloc, &mut self.placing, word, rest)?,
            _ => call(rt, alloc, &mut self.case, word, rest)?,
        }
        Ok(())
    }
}
