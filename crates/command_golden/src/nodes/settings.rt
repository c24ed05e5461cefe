//! What a case begins with, as words.

use crate::nodes::frames::push_word;
use golden_lines::{Stop, number_of};
use std::alloc::Global;

/// The words of the node that a case runs, its address, the numbers of the calls of the door, of the sink, of the source and of the disk
/// that fail, 0 for none, and what its file has.
#[derive(Clone, Copy)]
pub struct Setting<'a> {
    pub node: &'a str,
    pub addr: &'a str,
    pub door: u64,
    pub sink: u64,
    pub source: u64,
    pub disk: u64,
    pub file: &'a str,
}

impl<'a> Setting<'a> {
    /// Whether it is a lease, which has no cluster and no address.
    pub fn is_lease(&self) -> bool {
        self.node == "lease"
    }

    /// Whether it has a file.
    pub fn has_file(&self) -> bool {
        self.is_lease() || self.node.starts_with("master")
    }

    /// Has the call of this number fail, of the sink, the source, the disk, or else the door.
    pub fn fail(&mut self, what: &str, call: u64) {
        match what {
            "sink" => self.sink = call,
            "source" => self.source = call,
            "disk" => self.disk = call,
            _ => self.door = call,
        }
    }
}

// The node of a word.
fn node_of(word: &str) -> Option<&str> {
    match word {
        "agent" => Some("agent:0:1"),
        "app" => Some("app:0:1:2"),
        "lease" => Some("lease"),
        word if word.starts_with("agent:") => Some(word),
        word if word.starts_with("app:") => Some(word),
        word if word.starts_with("master:") => Some(word),
        _ => None,
    }
}

/// The setting of these words, and the words of the connections behind them. None where they name no node.
pub fn setting_of<'a, 'b>(words: &'b [&'a str]) -> Option<(Setting<'a>, &'b [&'a str])> {
    let mut setting = Setting {
        node: "",
        addr: "x",
        door: 0,
        sink: 0,
        source: 0,
        disk: 0,
        file: "",
    };
    let mut words = words;
    for _ in 0..6 {
        match words {
            [
                what @ ("fails" | "sink" | "source" | "disk"),
                call,
                rest @ ..,
            ] => {
                setting.fail(what, number_of(call));
                words = rest;
            }
            ["file", bytes, rest @ ..] => {
                setting.file = *bytes;
                words = rest;
            }
            ["at", addr, rest @ ..] => {
                setting.addr = *addr;
                words = rest;
            }
            _ => break,
        }
    }
    let [word, rest @ ..] = words else {
        return None;
    };
    setting.node = node_of(*word)?;
    Some((setting, rest))
}

/// The bytes of a file: those of a word, or so many records of fences that rise from 1, where it is `full`.
pub fn file_of(alloc: Global, word: &str) -> Result<Option<Vec<u8>>, Stop> {
    if word != "full" {
        return Ok(hex::decode(alloc, word).ok());
    }
    let mut bytes = Vec::new(alloc);
    for epoch in 1..=65_536u64 {
        bytes.extend_from_slice(&[1, 0, 0, 0, 10, 1, 1])?;
        bytes.extend_from_slice(&epoch.to_be_bytes())?;
    }
    bytes.push(0)?;
    Ok(Some(bytes))
}

// Does to the last connection what a word says: `-N` cuts its last bytes, any other word appends bytes.
fn take_word(alloc: Global, last: &mut Vec<u8>, word: &str) -> Result<bool, Stop> {
    let Some(("", cut)) = word.split_once('-') else {
        return push_word(alloc, last, word);
    };
    let Ok(cut) = cut.parse::<usize>() else {
        return Ok(false);
    };
    last.truncate(last.len().saturating_sub(cut));
    Ok(true)
}

/// What each connection gives, by these words; `/` ends one. None where a word stands for nothing.
pub fn connections_of(alloc: Global, words: &[&str]) -> Result<Option<Vec<Vec<u8>>>, Stop> {
    let mut gives = Vec::new(alloc);
    if words.is_empty() {
        return Ok(Some(gives));
    }
    let mut last = Vec::new(alloc);
    for word in words {
        if *word == "/" {
            gives.push(last)?;
            last = Vec::new(alloc);
        } else if !take_word(alloc, &mut last, word)? {
            return Ok(None);
        }
    }
    gives.push(last)?;
    Ok(Some(gives))
}
