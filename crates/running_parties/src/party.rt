//! What a slot holds.

use ledger_law::OutOfMemory;
use party_ledgers::{Header, Kind, Packet, Packets};
use peer_channel::Reply;
use std::alloc::Global;

/// One party as it runs. What its calls do is said of every party of the definitions that it stands for. Each is at most one step, of
/// which fewer than 2^50 may be taken. Where memory is refused the party is gone.
pub trait Party: Sized + Drop {
    ghost use Rattle.std.specs.Prelude.{◌≡◌, ◌+◌, ◌<◌, ◌≤◌, ℕ, IfOk, IfSome};
    ghost use Rattle.std.specs.List.{AllByRecursion};
    ghost use Rattle.fuxi_terms.specs.Limits.{most_steps};
    ghost use Rattle.party_ledgers.specs.Packets.{IsFormed};
    ghost use Rattle.party_ledgers.specs.PacketHeaders.{header_of};
    ghost use Rattle.party_ledgers.specs.declared.packets.Packet.{Packet};
    ghost use Rattle.peer_channel.specs.Parcels.{IsSent};
    ghost use Rattle.spec_refinement.specs.SeenParties.{Role, resynced};
    ghost use Rattle.running_parties.specs.PartyAnswers.{HearsAlike, SendsAlike};

    /// It stands for this party.
    ghost stands: { Self → Role → Type 0 };

    /// The number of its steps.
    ghost steps: { Self → ℕ };

    /// Hears a packet that is formed and no End.
    fn hear(self, alloc: Global, packet: Packet) -> Result<(Self, Reply), OutOfMemory>
        requires formed { IsFormed packet }
        requires no_end { packet.kind ≡ Kind.End → ⊥ }
        requires steps { steps self < most_steps }
        ensures hears { IfOk result (λ after. HearsAlike (stands self) (stands after.0) packet after.1) }
        ensures steps { IfOk result (λ after. steps after.0 ≤ steps self + 1) };

    /// As what it hears a packet with this header, where that can be told without its body and hearing it changes nothing.
    fn leaves(&self, header: &Header) -> Option<Reply>
        ensures { IfSome result (λ reply. (packet : Packet) → IsFormed packet → header_of packet ≡ header.now → HearsAlike (stands self.now) (stands self.now) packet reply) };

    /// What it sends in one turn.
    fn turn(self, alloc: Global) -> Result<(Self, Packets), OutOfMemory>
        requires { steps self < most_steps }
        ensures sends { IfOk result (λ after. SendsAlike (stands self) (stands after.0) after.1) }
        ensures formed { IfOk result (λ after. AllByRecursion IsSent after.1) }
        ensures steps { IfOk result (λ after. steps after.0 ≤ steps self + 1) };

    /// Forgets what its peers have acknowledged.
    fn resync(self, alloc: Global) -> Result<Self, OutOfMemory>
        requires { steps self < most_steps }
        ensures resyncs { IfOk result (λ after. (r : Role) → stands self r → stands after (resynced r)) }
        ensures steps { IfOk result (λ after. steps after ≤ steps self + 1) };
}
