//! What a master hears of applications.

ghost use Rattle.std.specs.Prelude.{◌≡◌, ◌<◌, ◌&&◌, ◌||◌, not, nat_eq, nat_lt, true, false, Some, None, IfOk, IfSome, OnOk, if◌then◌else◌};
ghost use Rattle.fuxi_terms.specs.Counts.{AreCounts};
ghost use Rattle.fuxi_terms.specs.Keys.{key_cmp};
ghost use Rattle.fuxi_terms.specs.Tallies.{empty_tally};
ghost use Rattle.std.specs.List.{list_any};
ghost use Rattle.fuxi_terms.specs.TallyKeys.{greatest_demand, greatest_grant, is_back};
ghost use Rattle.fuxi_terms.specs.Jobs.{has_ended, is_known, unit_count};
ghost use Rattle.grant_table.specs.GrantTables.{as_known};
ghost use Rattle.allotment.specs.Allotted.{AllWait, CreditsBack, newly_credited};
ghost use Rattle.ledger_law.specs.Shapes.{IsTally};
ghost use Rattle.party_ledgers.specs.Packets.{IsFormed};
ghost use Rattle.party_ledgers.specs.declared.packets.Body.TheVariants.{DemandDelta};
ghost use Rattle.peer_channel.specs.Bodies.{tally_of};
ghost use Rattle.peer_channel.specs.CoreSides.{HearsAlike};
ghost use Rattle.schedule_unit.specs.declared.party.Role.TheVariants.{Master as AsMaster, App as AsApp};
ghost use Rattle.fuxi_master.specs.Cores.{IsCore, IsNear, HasBoots, patched_grants};
ghost use Rattle.fuxi_master.specs.ToldAsHeard.{ToldButAt};
ghost use Rattle.fuxi_master.specs.Heard.{IsAppHeard, ChangesAsked, Changes, IsCredited, IsDemanded, demanding};
ghost use Rattle.fuxi_master.specs.Seen.{core_of};

use crate::state::Core;
use allotment::Allotment;
use fuxi_terms::tally_keys::BACK;
use fuxi_terms::{Key, OutOfMemory};
use hard_state::Known;
use ledger_law::{Change, Ledger};
use ledger_updates::StepChanges;
use party_ledgers::{Body, Demand, Grants, Kind, Packet};
use peer_channel::{NoLimit, Reply, Side};
use schedule_unit::AppNo;
use std::alloc::Global;

impl Core {
    // Hears a packet of the application of a known job. A change of a demand that counted is handed back.
    pub(crate) fn hear_app(
        &mut self,
        alloc: Global,
        packet: Packet,
    ) -> Result<(Reply, Option<Change>), OutOfMemory>
        requires core { IsCore (core_of self.old) }
        requires formed { IsFormed packet }
        requires no_end { packet.kind ≡ Kind.End → ⊥ }
        requires from { packet.from.role ≡ AsApp }
        requires known { is_known self.old.known.jobs packet.from.number ≡ true }
        requires to { packet.to.role ≡ AsMaster }
        requires zero { packet.to.number ≡ 0 }
        ensures { IfOk result (λ told. IsAppHeard packet.from.number packet told.0 told.1 (core_of self.old) (core_of self.new)) }
    {
        let app = AppNo(packet.from.number);
        let Some(side) = &mut self.apps[app.0 as usize] else {
            unreachable!()
        };
        let counted = counts(true, side, self.epoch, &self.known, app);
        let told = hear(alloc, side, packet, counted)?;
        Ok(told)
    }

    // Takes what came of an application that is new, or whose demand was taken.
    pub(crate) fn take_demand(
        &mut self,
        alloc: Global,
        app: AppNo,
        fresh: bool,
        taken: bool,
        change: &Option<Change>,
    ) -> Result<StepChanges, OutOfMemory>
        requires near { IsNear (core_of self.old) }
        requires boots { HasBoots (λ a. fresh && nat_eq a app.0) (core_of self.old) }
        requires known { is_known self.old.known.jobs app.0 ≡ true }
        requires told { (fresh || taken) ≡ true }
        requires asks { IfSome change.now (λ change. ChangesAsked app.0 fresh taken change (core_of self.old)) }
        ensures none { IfOk result (λ news. (news.reported ≡ None) × (news.admitted ≡ None)) }
        ensures changes { IfOk result (λ news. Changes news (λ r. demanding fresh taken r app.0) (core_of self.old) (core_of self.new)) }
    {
        let Some(side) = &self.apps[app.0 as usize] else {
            unreachable!()
        };
        let live = counts(taken, side, self.epoch, &self.known, app);
        self.allotment.table().is_sound();
        let _units = self.allotment.table().units(app);
        let credited = demanded(alloc, &mut self.allotment, app, side, fresh, live, change)?;
        Ok(StepChanges {
            reported: None,
            admitted: None,
            machines: Vec::new(alloc),
            job: Some(app),
            credited,
        })
    }
}

// Hears a packet of an application. Where what was received of it counts, a change that it brings is handed back.
fn hear(
    alloc: Global,
    side: &mut Side<Grants, Demand>,
    packet: Packet,
    counted: bool,
) -> Result<(Reply, Option<Change>), OutOfMemory>
    requires formed { IsFormed packet }
    requires no_end { packet.kind ≡ Kind.End → ⊥ }
    requires from { packet.from.role ≡ AsApp }
    requires to { packet.to.role ≡ AsMaster }
    ensures hears { IfOk result (λ told. HearsAlike empty_tally patched_grants (IsTally greatest_grant) tally_of tally_of (λ l. None) packet side.old side.new told.0) }
    ensures fresh { IfOk result (λ told. told.0.fresh ≡ nat_lt side.old.incoming.place.inc packet.from.inc) }
    ensures peer { side.new.incoming.place.inc ≡ (if nat_lt side.old.incoming.place.inc packet.from.inc then packet.from.inc else side.old.incoming.place.inc) }
    ensures outgoing { side.new.outgoing ≡ side.old.outgoing }
    ensures change { IfOk result (λ told. IfSome told.1 (λ change. (counted ≡ true) × (packet.body ≡ DemandDelta change))) }
{
    if !counted || packet.kind != Kind::Delta {
        let heard = side.hear_moved(alloc, packet, &NoLimit, &mut ())?;
        return Ok((heard, None));
    }
    let heard = side.hear(alloc, &packet, &NoLimit, &mut ())?;
    Ok((heard, change_in(packet)))
}

// The change of a demand that a packet brings.
fn change_in(packet: Packet) -> Option<Change>
    ensures { IfSome result (λ change. packet.body ≡ DemandDelta change) }
{
    match packet.body {
        Body::DemandDelta(change) => Some(change),
        _ => None,
    }
}

// Whether a demand was taken that counts: it has this epoch, and its job has not ended.
fn counts(taken: bool, side: &Side<Grants, Demand>, epoch: u64, known: &Known, app: AppNo) -> bool
    ensures { result ≡ (taken && (nat_eq side.now.incoming.received.head epoch && not (has_ended known.now.jobs app.0))) }
{
    taken && (side.got().head() == epoch && !known.ended(app))
}

// Whether any of these changes is of what is given back.
fn gives_back(changes: &[(Key, i64)]) -> bool
    ensures { result ≡ list_any (λ e. is_back e.0) changes.now }
{
    changes.iter().any(|(key, _)| key.what == BACK)
}

// Of what a demand gives back the table loses what is not credited yet. All of it is where no change of the demand is of that, so that it is
// not walked then.
fn credit(
    alloc: Global,
    allotment: &mut Allotment,
    app: AppNo,
    demand: &Demand,
    given: &Grants,
    change: &Option<Change>,
) -> Result<Vec<(Key, u64)>, OutOfMemory>
    requires waits { AllWait allotment.old }
    requires told { IfSome change.now (λ change. ToldButAt change.entries app.0 demand.now.entries given.now.entries allotment.old) }
    ensures credits { OnOk result (CreditsBack app.0 demand.now.entries given.now.entries allotment.old allotment.new) }
    ensures counts { OnOk result (AreCounts key_cmp greatest_demand demand.now.entries) }
    ensures numbers { IfOk result (λ numbers. numbers.items ≡ newly_credited allotment.old.table.cluster (unit_count (as_known allotment.old.table.jobs) app.0) given.now.entries demand.now.entries) }
{
    let _entries = demand.entries();
    allotment.table().is_sound();
    if let Some(change) = change {
        if !gives_back(change.entries()) {
            return Ok(Vec::new(alloc));
        }
    }
    let numbers = allotment.credit(alloc, app, demand, given)?;
    Ok(numbers)
}

// What a demand gives back is credited, and the demand is then the job's. What is credited now is told.
fn credited(
    alloc: Global,
    allotment: &mut Allotment,
    app: AppNo,
    demand: &Demand,
    given: &Grants,
    change: &Option<Change>,
) -> Result<Vec<(Key, u64)>, OutOfMemory>
    requires waits { AllWait allotment.old }
    requires units { 0 < unit_count (as_known allotment.old.table.jobs) app.0 }
    requires told { IfSome change.now (λ change. ToldButAt change.entries app.0 demand.now.entries given.now.entries allotment.old) }
    ensures credits { OnOk result (IsCredited app.0 demand.now.entries given.now.entries allotment.old allotment.new) }
    ensures counts { OnOk result (AreCounts key_cmp greatest_demand demand.now.entries) }
    ensures numbers { IfOk result (λ numbers. numbers.items ≡ newly_credited allotment.old.table.cluster (unit_count (as_known allotment.old.table.jobs) app.0) given.now.entries demand.now.entries) }
{
    let numbers = credit(alloc, allotment, app, demand, given, change)?;
    let _placer = allotment.placer();
    if let Some(change) = change {
        allotment.asked(app, demand, Some(change.entries()));
        return Ok(numbers);
    }
    allotment.asked(app, demand, None);
    Ok(numbers)
}

// What came of an application: of a demand that counts, what it gives back is credited; else its demand counts as empty. To a new boot
// nothing is credited yet.
fn demanded(
    alloc: Global,
    allotment: &mut Allotment,
    app: AppNo,
    side: &Side<Grants, Demand>,
    fresh: bool,
    live: bool,
    change: &Option<Change>,
) -> Result<Vec<(Key, u64)>, OutOfMemory>
    requires waits { AllWait allotment.old }
    requires units { 0 < unit_count (as_known allotment.old.table.jobs) app.0 }
    requires told { IfSome change.now (λ change. fresh ≡ false → live ≡ true → ToldButAt change.entries app.0 side.now.incoming.received.entries side.now.outgoing.present.entries allotment.old) }
    ensures { IfOk result (λ numbers. IsDemanded app.0 fresh live side.now allotment.old allotment.new numbers.items) }
{
    let _entries = side.got().entries();
    if !live {
        allotment.asked(app, &Demand::empty(alloc), None);
        return Ok(Vec::new(alloc));
    }
    if fresh {
        let given = Grants::empty(alloc);
        let numbers = credited(alloc, allotment, app, side.got(), &given, &None)?;
        return Ok(numbers);
    }
    let numbers = credited(alloc, allotment, app, side.got(), side.sent(), change)?;
    Ok(numbers)
}
