//! What the journal says of a call.

ghost use Rattle.std.specs.Prelude.{◌≡◌, ◌<◌, ◌++◌, ◌∷◌, [], length, get_or, OnOk, OnErr};

use crate::call::BadCall;
use delta_channel::Place;
use fuxi_terms::OutOfMemory;
use party_ledgers::{Heard, Kind};
use schedule_unit::Party;
use std::alloc::Global;
use std::marker::Model;

/// How a call went.
#[derive(Clone, Copy, Debug, Drop, PartialEq, Eq)]
pub enum Words {
    /// Its packet was heard as this.
    Took(Heard),
    /// It is none, and nothing was heard.
    Bad(BadCall),
}

/// A packet of the turn to the sender, without its content.
#[derive(Clone, Copy, Debug, Drop, PartialEq, Eq)]
pub struct Head {
    pub from: Party,
    pub to: Party,
    pub kind: Kind,
    pub place: Place,
    /// The length of its frame.
    pub bytes: u64,
}

/// The packets of a turn, in order, without their content.
#[derive(Drop)]
pub struct Heads {
    heads: Vec<Head>,
}

impl Model for Heads {
    ghost use Rattle.std.specs.Prelude.{List};
    ghost use Rattle.master_desk.specs.declared.entry.Head.{Head};

    ghost Value = { List Head };

    ghost view = { λ h. h.heads.items };
}

impl Heads {
    /// No packet.
    pub fn new(alloc: Global) -> Heads
        ensures { result ≡ [] }
    {
        Heads {
            heads: Vec::new(alloc),
        }
    }

    /// One packet more. Want of memory leaves them as they were.
    pub fn push(&mut self, head: Head) -> Result<(), OutOfMemory>
        ensures ok { OnOk result (self.new ≡ self.old ++ head ∷ []) }
        ensures err { OnErr result (self.new ≡ self.old) }
    {
        match self.heads.push(head) {
            Ok(()) => Ok(()),
            Err(_) => Err(OutOfMemory),
        }
    }

    /// How many packets it are.
    pub fn len(&self) -> usize
        ensures { result ≡ length self.now }
    {
        self.heads.len()
    }

    /// The packet at an index.
    pub fn at(&self, index: usize) -> Head
        requires { index < length self.now }
        ensures { result ≡ get_or self.now index result }
    {
        self.heads[index]
    }
}

/// One call in the journal.
#[derive(Drop)]
pub struct Entry {
    pub session: u32,
    /// Its number among the calls of the session, counted from 1.
    pub call: u32,
    pub words: Words,
    /// The turn to the sender of its packet.
    pub heads: Heads,
}
