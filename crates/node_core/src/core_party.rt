ghost use Rattle.std.specs.Prelude.{◌≡◌, ◌+◌, ◌<◌, ◌≤◌, ℕ, true, length, IfOk, Option};
ghost use Rattle.fuxi_io.specs.Disks.{Told as Moments};
ghost use Rattle.fuxi_terms.specs.Limits.{most_steps};
ghost use Rattle.party_ledgers.specs.Packets.{IsFormed};
ghost use Rattle.node_core.specs.Roles.{Role, heard, allowed, may_send, turn, IsTurn, Keeps};

use ledger_law::OutOfMemory;
use party_ledgers::{Kind, Packet};
use schedule_unit::Party;
use std::alloc::Global;

/// What a party sends in one connection.
#[derive(Drop)]
pub struct Turn {
    /// The frames of its turn, and that of an End packet.
    pub bytes: Vec<u8>,
    /// How many packets these are without End.
    pub packets: u64,
}

/// The party that a node runs. What its calls do is said of every party of the definitions that it stands for.
/// Each call that takes it is at most one step; fewer than 2^50 may be taken. Where memory is refused it is gone.
pub trait Core: Sized + Drop {
    ghost use Rattle.std.specs.Prelude.{◌≡◌, ◌+◌, ◌<◌, ◌≤◌, ℕ, true, length, IfOk, Option};
    ghost use Rattle.fuxi_io.specs.Disks.{Told as Moments};
    ghost use Rattle.fuxi_terms.specs.Limits.{most_steps};
    ghost use Rattle.party_ledgers.specs.Packets.{IsFormed};
    ghost use Rattle.node_core.specs.Roles.{Role, heard, allowed, may_send, turn, IsTurn, Keeps};

    /// It stands for this party.
    ghost stands: { Self → Role → Type 0 };

    /// The number of its steps.
    ghost steps: { Self → ℕ };

    /// A disk of this length and with these moments is as its commands need it. Rounds do not touch it.
    ghost rests: { Self → ℕ → Option Moments → Type 0 };

    /// Whether a connection allows the packet. `peer` sent the one before it, and is None for the first one.
    fn allows(&self, peer: Option<Party>, packet: &Packet) -> bool
        ensures { (r : Role) → stands self.now r → result ≡ allowed r peer packet.now };

    /// Hears a packet that is formed and no End.
    fn hear(self, alloc: Global, packet: Packet) -> Result<Self, OutOfMemory>
        requires formed { IsFormed packet }
        requires no_end { packet.kind ≡ Kind.End → ⊥ }
        requires steps { steps self < most_steps }
        ensures hears { IfOk result (λ after. (r : Role) → stands self r → stands after (heard r packet)) }
        ensures steps { IfOk result (λ after. steps after ≤ steps self + 1) }
        ensures rests { IfOk result (λ after. Keeps (rests self) (rests after)) };

    /// What it sends in a connection: to its peer, or to the party that it dials, where `peer` is None.
    fn turn(self, alloc: Global, peer: Option<Party>) -> Result<(Self, Turn), OutOfMemory>
        requires peer { (r : Role) → stands self r → may_send r peer ≡ true }
        requires steps { steps self < most_steps }
        ensures stands { IfOk result (λ after. (r : Role) → stands self r → stands after.0 r) }
        ensures bytes { IfOk result (λ after. (r : Role) → stands self r → IsTurn r peer after.1.bytes.items) }
        ensures packets { IfOk result (λ after. (r : Role) → stands self r → after.1.packets ≡ length (turn r peer)) }
        ensures steps { IfOk result (λ after. steps after.0 ≤ steps self + 1) }
        ensures rests { IfOk result (λ after. Keeps (rests self) (rests after.0)) };
}
