//! What a master hears of agents.

ghost use Rattle.std.specs.Prelude.{◌≡◌, ◌<◌, ◌^◌, not, nat_eq, ◌&&◌, length, Some, None, IfOk};
ghost use Rattle.party_ledgers.specs.Packets.{IsFormed};
ghost use Rattle.schedule_unit.specs.declared.party.Role.TheVariants.{Master as AsMaster, Agent as AsAgent};
ghost use Rattle.spec_net.specs.Net.{is_taken};
ghost use Rattle.fuxi_master.specs.Cores.{IsCore};
ghost use Rattle.fuxi_master.specs.Heard.{IsAgentHeard, IsAdopted, IsDue};
ghost use Rattle.fuxi_master.specs.Seen.{core_of};

use crate::state::{Core, news};
use failover::{AdoptFault, adopt, kept_total};
use fuxi_terms::OutOfMemory;
use hard_state::Known;
use ledger_updates::StepChanges;
use party_ledgers::{JoinLedger, Kind, Packet, RowLedger};
use peer_channel::{Excess, Limit, Refusal, Reply, Side};
use res_vector::{Res, sum_fits};
use schedule_unit::MachineNo;
use std::alloc::Global;

// A report of which the entries that would be kept fit the machine. One that is not adopted is never too much.
#[derive(Drop)]
pub(crate) struct ReportLimit<'a> {
    known: &'a Known,
    has: Res,
    epoch: u64,
    reported: bool,
    banned: bool,
}

impl<'a> Limit<JoinLedger> for ReportLimit<'a> {
    ghost use Rattle.fuxi_master.specs.Heard.{excess_by};

    type Measure = ();

    ghost excess = { λ l w. excess_by (record { known = l.known.now; has = l.has.q; epoch = l.epoch; reported = l.reported; banned = l.banned }) w };

    ghost measures = { λ _ _ _. Unit {0} };

    fn nothing(&self) -> () {}

    fn whole(&self, ledger: &JoinLedger) -> Result<(), Excess> {
        if ledger.epoch() != self.epoch || self.reported || self.banned {
            return Ok(());
        }
        let total = kept_total(ledger.table(), self.known);
        if sum_fits(&total, &self.has) {
            return Ok(());
        }
        Err(Excess {
            total,
            has: self.has,
        })
    }

    fn change(
        &self,
        _measure: &(),
        _ledger: &JoinLedger,
        change: &JoinLedger,
    ) -> Result<(), Refusal> {
        match self.whole(change) {
            Ok(()) => Ok(()),
            Err(excess) => Err(Refusal::Exceeds {
                total: excess.total,
                has: excess.has,
            }),
        }
    }
}

// Whether a report was taken that is adopted now.
fn is_due(heard: &Reply, side: &Side<RowLedger, JoinLedger>, epoch: u64, reported: bool) -> bool
    ensures { result ≡ (is_taken heard.now.what && (nat_eq side.now.incoming.received.epoch epoch && not reported)) }
{
    heard.is_taken() && side.got().epoch() == epoch && !reported
}

impl Core {
    // Hears a packet of the agent of a machine. Whether it brought a report that is adopted now.
    pub(crate) fn hear_agent(
        &mut self,
        alloc: Global,
        packet: Packet,
    ) -> Result<(Reply, bool), OutOfMemory>
        requires core { IsCore (core_of self.old) }
        requires formed { IsFormed packet }
        requires no_end { packet.kind ≡ Kind.End → ⊥ }
        requires from { packet.from.role ≡ AsAgent }
        requires machine { packet.from.number < length self.old.allotment.table.cluster.machines }
        requires to { packet.to.role ≡ AsMaster }
        requires zero { packet.to.number ≡ 0 }
        ensures { IfOk result (λ after. IsAgentHeard packet.from.number packet after.0 after.1 (core_of self.old) (core_of self.new)) }
    {
        let machine = MachineNo(packet.from.number);
        let limit = ReportLimit {
            known: &self.known,
            has: self.allotment.table().cluster().machine(machine).has,
            epoch: self.epoch,
            reported: self.reported.has(machine),
            banned: self.known.banned(machine),
        };
        let side = &mut self.agents[machine.0 as usize];
        let heard = side.hear_moved(alloc, packet, &limit, &mut ())?;
        let due = is_due(&heard, side, limit.epoch, limit.reported);
        Ok((heard, due))
    }

    // Adopts the report of a machine.
    pub(crate) fn adopt_report(
        &mut self,
        alloc: Global,
        machine: MachineNo,
    ) -> Result<StepChanges, OutOfMemory>
        requires core { IsCore (core_of self.old) }
        requires machine { machine.0 < length self.old.allotment.table.cluster.machines }
        requires due { IsDue machine.0 (core_of self.old) }
        requires turns { self.old.allotment.placer.seen.turns < 2 ^ 63 }
        ensures { IfOk result (λ news. IsAdopted machine news (core_of self.old) (core_of self.new)) }
    {
        let has = self.allotment.table().cluster().machine(machine).has;
        let report = self.agents[machine.0 as usize].got().table();
        let kept = match adopt(alloc, report, &self.known, machine, &has) {
            Ok(kept) => kept,
            Err(AdoptFault::OutOfMemory) => return Err(OutOfMemory),
            Err(AdoptFault::Exceeds { .. }) => unreachable!(),
        };
        self.allotment.adopt(machine, &kept)?;
        self.allotment.open(machine, !self.known.banned(machine));
        self.reported.add(machine);
        Ok(news(alloc, Some(machine), None))
    }
}
