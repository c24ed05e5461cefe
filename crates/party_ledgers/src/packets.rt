//! Packets: what one party tells another, with its content.

ghost use Rattle.std.specs.Prelude.{◌≡◌, ◌+◌, ◌≤◌, ◌↔◌, ◌++◌, ◌∷◌, [], IsTrue, OnOk, OnErr, vec_len, vec_capacity};
ghost use Rattle.party_ledgers.specs.Packets.{IsFormed, IsBodyOf, are_parties, is_place_of, is_bare, is_full, is_delta, to_agent, to_app};

use crate::join::JoinLedger;
use crate::row_ledger::{RowChange, RowLedger};
use crate::shapes::{Demand, DemandShape, GrantShape, Grants};
use delta_channel::Place;
pub use fuxi_terms::What;
use fuxi_terms::limits::MOST_MACHINES;
use ledger_law::{Change, OutOfMemory};
use schedule_unit::{Party, Role};
use std::alloc::Global;
use std::marker::Model;

/// What a packet is for.
#[derive(Clone, Copy, Debug, PartialEq, Eq)]
pub enum Kind {
    /// It tells how far what came the other way has come.
    Ack,
    /// It brings the change that leads to an index.
    Delta,
    /// It brings the whole ledger of an index.
    Full,
    /// It ends what a party sends in one connection.
    End,
}

/// What a packet holds: a ledger or a change of the channel that it goes on. A change of a [`JoinLedger`] is
/// another such ledger.
#[derive(Drop)]
pub enum Body {
    Nothing,
    Row(RowLedger),
    RowDelta(RowChange),
    Join(JoinLedger),
    Grants(Grants),
    GrantsDelta(Change),
    Demand(Demand),
    DemandDelta(Change),
}

/// One packet with its content.
#[derive(Drop)]
pub struct Packet {
    pub from: Party,
    /// Its incarnation is 0 where the sender knows none.
    pub to: Party,
    pub kind: Kind,
    /// Of an acknowledgement the place in the other direction; of a ledger or a change the place that it leads to.
    pub place: Place,
    pub body: Body,
}

/// What a packet was heard as.
#[derive(Clone, Copy, Debug, Drop, PartialEq, Eq)]
pub struct Heard {
    /// Its sender is a new incarnation of the peer.
    pub fresh: bool,
    /// The word of the rule that ended it.
    pub what: What,
}

fn is_bare(kind: Kind) -> bool
    ensures { result ≡ is_bare kind }
{
    matches!(kind, Kind::Ack | Kind::End)
}

fn is_full(kind: Kind) -> bool
    ensures { result ≡ is_full kind }
{
    matches!(kind, Kind::Full)
}

fn is_delta(kind: Kind) -> bool
    ensures { result ≡ is_delta kind }
{
    matches!(kind, Kind::Delta)
}

fn to_agent(from: Role, to: Role) -> bool
    ensures { result ≡ to_agent from to }
{
    matches!(from, Role::Master) && matches!(to, Role::Agent)
}

fn to_app(from: Role, to: Role) -> bool
    ensures { result ≡ to_app from to }
{
    matches!(from, Role::Master) && matches!(to, Role::App)
}

/// Whether a packet may go from one party to the other: one is the master and the other an agent or an
/// application, each has a number of its role, and the sender has an incarnation.
pub fn are_parties(from: &Party, to: &Party) -> bool
    ensures { result ≡ are_parties from.now to.now }
{
    match (from.role, to.role) {
        (Role::Master, Role::Agent | Role::App) => {
            from.number == 0 && (to.number as usize) < MOST_MACHINES && from.inc > 0
        }
        (Role::Agent | Role::App, Role::Master) => {
            (from.number as usize) < MOST_MACHINES && to.number == 0 && from.inc > 0
        }
        _ => false,
    }
}

/// Whether a packet of this kind, of a sender of this incarnation, may have this place.
pub fn is_place_of(kind: Kind, inc: u64, place: &Place) -> bool
    ensures { result ≡ is_place_of kind inc place.now }
{
    match kind {
        Kind::Ack => place.inc > 0 || place.seq == 0,
        Kind::Delta => place.inc == inc && place.seq > 1,
        Kind::Full => place.inc == inc && place.seq > 0,
        Kind::End => place.inc == 0 && place.seq == 0,
    }
}

// Whether the body is that of the channel and the kind, and has a form.
fn is_body_of(body: &Body, kind: Kind, from: Role, to: Role) -> bool
    ensures { IsTrue result ↔ IsBodyOf body.now kind from to }
{
    match body {
        Body::Nothing => is_bare(kind),
        Body::Row(_) => is_full(kind) && to_agent(from, to),
        Body::RowDelta(change) => is_delta(kind) && to_agent(from, to) && change.has_form(),
        Body::Join(_) => (is_full(kind) || is_delta(kind)) && to_agent(to, from),
        Body::Grants(_) => is_full(kind) && to_app(from, to),
        Body::GrantsDelta(change) => {
            is_delta(kind) && to_app(from, to) && change.has_form::<GrantShape>()
        }
        Body::Demand(_) => is_full(kind) && to_app(to, from),
        Body::DemandDelta(change) => {
            is_delta(kind) && to_app(to, from) && change.has_form::<DemandShape>()
        }
    }
}

impl Packet {
    /// Whether it can be sent: one party is the master and the other an agent or an application, its place is one
    /// of its kind, and its body is that of the channel and the kind and has a written form. It takes no memory.
    pub fn formed(&self) -> bool
        ensures { IsTrue result ↔ IsFormed self.now }
    {
        are_parties(&self.from, &self.to)
            && is_place_of(self.kind, self.from.inc, &self.place)
            && is_body_of(&self.body, self.kind, self.from.role, self.to.role)
    }
}

// Room for so many packets more. A list that grows has room for four times as many as it has, since one turn of a
// master may have hundreds.
fn make_room(packets: &mut Vec<Packet>, additional: usize) -> Result<(), OutOfMemory>
    ensures items { packets.new.items ≡ packets.old.items }
    ensures room { OnOk result (vec_len packets.new + additional ≤ vec_capacity packets.new) }
{
    let len = packets.len();
    if additional <= packets.capacity() - len {
        return Ok(());
    }
    match packets.reserve(additional.max(len.saturating_mul(3))) {
        Ok(()) => Ok(()),
        Err(_) => Err(OutOfMemory),
    }
}

/// Packets in order, as one turn of a party sends them.
#[derive(Drop)]
pub struct Packets {
    packets: Vec<Packet>,
}

impl Model for Packets {
    ghost use Rattle.std.specs.Prelude.{List};
    ghost use Rattle.party_ledgers.specs.declared.packets.Packet.{Packet};

    ghost Value = { List Packet };

    ghost view = { λ p. p.packets.items };
}

impl Packets {
    /// No packet.
    pub fn new(alloc: Global) -> Packets
        ensures { result ≡ [] }
    {
        Packets {
            packets: Vec::new(alloc),
        }
    }

    /// Room for so many packets more. The packets stay as they are.
    pub fn reserve(&mut self, additional: usize) -> Result<(), OutOfMemory>
        ensures { self.new ≡ self.old }
    {
        make_room(&mut self.packets, additional)
    }

    /// One packet more, behind the others. Want of memory leaves them as they were.
    pub fn push(&mut self, packet: Packet) -> Result<(), OutOfMemory>
        ensures ok { OnOk result (self.new ≡ self.old ++ packet ∷ []) }
        ensures err { OnErr result (self.new ≡ self.old) }
    {
        match make_room(&mut self.packets, 1) {
            Ok(()) => {}
            Err(fault) => return Err(fault),
        }
        self.packets.push_reserved(packet);
        Ok(())
    }

    /// The packets.
    pub fn as_slice(&self) -> &[Packet]
        ensures { result.now ≡ self.now }
    {
        &self.packets
    }

    /// The packets, as a list of their own.
    pub fn into_vec(self) -> Vec<Packet>
        ensures { result.items ≡ self }
    {
        self.packets
    }
}
