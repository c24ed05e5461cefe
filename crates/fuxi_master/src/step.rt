//! One step of a master.

ghost use Rattle.std.specs.Prelude.{◌≡◌, ◌<◌, ◌≤◌, true, false, length, IfOk, IfSome};
ghost use Rattle.fuxi_terms.specs.Cluster.{JobRecord};
ghost use Rattle.fuxi_terms.specs.Jobs.{is_known};
ghost use Rattle.schedule_unit.specs.declared.party.Role.TheVariants.{Master as AsMaster, Agent as AsAgent, App as AsApp};
ghost use Rattle.fuxi_terms.specs.Limits.{most_machines, most_steps};
ghost use Rattle.party_ledgers.specs.Packets.{IsFormed};
ghost use Rattle.party_ledgers.specs.PacketHeaders.{header_of};
ghost use Rattle.party_ledgers.specs.declared.packets.Packet.{Packet};
ghost use Rattle.spec_roles.specs.MasterRoles.{MasterRole};
ghost use Rattle.spec_net.specs.Net.{is_taken, same_id};
ghost use Rattle.spec_net.specs.Channels.{master_id};
ghost use Rattle.peer_channel.specs.Parcels.{party_of};
ghost use Rattle.fuxi_master.specs.Cores.{IsCore, IsWithin, StandsFor};
ghost use Rattle.fuxi_master.specs.Seen.{core_of};
ghost use Rattle.fuxi_master.specs.Steps.{IsFitting, IsStep, IsHeard, HearsRole};

use crate::event::{MasterEvent, MasterRefusal, Outcome};
use crate::state::{Core, news};
use fuxi_terms::OutOfMemory;
use party_ledgers::{Header, Kind, Packet};
use peer_channel::Reply;
use schedule_unit::{AppNo, Job, MachineNo, Party, Role};
use std::alloc::Global;

// Whether what is sent to a party is for the master.
fn is_for_master(to: &Party) -> bool
    ensures { result ≡ same_id (party_of to.now).id master_id }
{
    matches!(to.role, Role::Master) && to.number == 0
}

// One step of a core on the heap, which is the one of this number. It stays where it is unless a job is admitted.
pub(crate) fn stepped(
    core: Box<Core>,
    alloc: Global,
    event: MasterEvent,
    steps: u64,
) -> Result<(Box<Core>, Outcome), OutOfMemory>
    requires core { IsCore (core_of core.value) }
    requires fitting { IsFitting (core_of core.value) event }
    requires within { IsWithin steps (core_of core.value) }
    requires steps { steps ≤ most_steps }
    ensures { IfOk result (λ after. IsStep event steps (core_of core.value) (core_of after.0.value) after.1) }
{
    let mut core = core;
    match event {
        MasterEvent::Admit(job) => {
            let (after, outcome) = Box::into_inner(core).step_admit(alloc, &job, steps)?;
            Ok((Box::new(alloc, after)?, outcome))
        }
        event => {
            let outcome = core.step(alloc, event, steps)?;
            Ok((core, outcome))
        }
    }
}

// A packet that a core on the heap hears, in the step of this number.
pub(crate) fn heard(
    core: Box<Core>,
    alloc: Global,
    packet: Packet,
    steps: u64,
) -> Result<(Box<Core>, Reply), OutOfMemory>
    requires core { IsCore (core_of core.value) }
    requires formed { IsFormed packet }
    requires no_end { packet.kind ≡ Kind.End → ⊥ }
    requires within { IsWithin steps (core_of core.value) }
    requires steps { steps ≤ most_steps }
    ensures { IfOk result (λ after. IsHeard packet steps (core_of core.value) (core_of after.0.value) after.1) }
{
    let mut core = core;
    let reply = core.hear(alloc, packet, steps)?;
    Ok((core, reply))
}

impl Core {
    // One step of any kind but the admission of a job. It is the one of this number.
    fn step(
        &mut self,
        alloc: Global,
        event: MasterEvent,
        steps: u64,
    ) -> Result<Outcome, OutOfMemory>
        requires core { IsCore (core_of self.old) }
        requires fitting { IsFitting (core_of self.old) event }
        requires other { (job : JobRecord) → event ≡ MasterEvent.Admit job → ⊥ }
        requires within { IsWithin steps (core_of self.old) }
        requires steps { steps ≤ most_steps }
        ensures { IfOk result (λ outcome. IsStep event steps (core_of self.old) (core_of self.new) outcome) }
    {
        match event {
            MasterEvent::Packet(packet) => {
                let heard = self.hear(alloc, packet, steps)?;
                Ok(Outcome::Heard(heard.heard()))
            }
            MasterEvent::Admit(_) => unreachable!(),
            MasterEvent::Finish(app) => self.step_finish(alloc, app, steps),
            MasterEvent::Ban(machine) => self.step_ban(alloc, machine, steps),
            MasterEvent::Unban(machine) => self.step_unban(alloc, machine, steps),
            MasterEvent::Begin => self.step_begin(alloc, steps),
            MasterEvent::Preempt => self.step_preempt(alloc, steps),
            MasterEvent::Turn => {
                let packets = self.turn(alloc)?;
                Ok(Outcome::Sent(packets))
            }
            MasterEvent::TurnTo(peer) => {
                let packets = self.turn_to(alloc, peer)?;
                Ok(Outcome::Sent(packets))
            }
            MasterEvent::Resync => {
                self.resync();
                Ok(Outcome::Done)
            }
        }
    }

    // As what a packet with this header is heard, where that can be told without its body and hearing it changes nothing.
    pub(crate) fn leaves(&self, header: &Header) -> Option<Reply>
        requires core { IsCore (core_of self.now) }
        ensures { IfSome result (λ reply. (x : Packet) → IsFormed x → header_of x ≡ header.now → (r : MasterRole) → StandsFor (core_of self.now) r → HearsRole x (core_of self.now) reply r) }
    {
        spec_roles::law::step_ends();
        if !is_for_master(&header.to) {
            return None;
        }
        let number = header.from.number;
        match header.from.role {
            Role::Master => None,
            Role::Agent => {
                if number >= self.allotment.table().cluster().machines() {
                    return None;
                }
                self.agent(number).leaves(header)
            }
            Role::App => {
                self.known.job(AppNo(number))?;
                self.app(number).leaves(header)
            }
        }
    }

    // A packet, with the end of the step where it changed something.
    fn hear(&mut self, alloc: Global, packet: Packet, steps: u64) -> Result<Reply, OutOfMemory>
        requires core { IsCore (core_of self.old) }
        requires formed { IsFormed packet }
        requires no_end { packet.kind ≡ Kind.End → ⊥ }
        requires within { IsWithin steps (core_of self.old) }
        requires steps { steps ≤ most_steps }
        ensures { IfOk result (λ heard. IsHeard packet steps (core_of self.old) (core_of self.new) heard) }
    {
        spec_roles::law::step_ends();
        peer_channel::law::strangers_change_nothing();
        if !is_for_master(&packet.to) {
            return Ok(Reply::stranger());
        }
        match packet.from.role {
            Role::Master => Ok(Reply::stranger()),
            Role::Agent => {
                if packet.from.number >= self.allotment.table().cluster().machines() {
                    return Ok(Reply::stranger());
                }
                self.heard_agent(alloc, packet, steps)
            }
            Role::App => {
                if self.known.job(AppNo(packet.from.number)).is_none() {
                    return Ok(Reply::stranger());
                }
                self.heard_app(alloc, packet, steps)
            }
        }
    }

    // A packet of an agent of the cluster.
    fn heard_agent(
        &mut self,
        alloc: Global,
        packet: Packet,
        steps: u64,
    ) -> Result<Reply, OutOfMemory>
        requires core { IsCore (core_of self.old) }
        requires formed { IsFormed packet }
        requires no_end { packet.kind ≡ Kind.End → ⊥ }
        requires from { packet.from.role ≡ AsAgent }
        requires machine { packet.from.number < length self.old.allotment.table.cluster.machines }
        requires to { packet.to.role ≡ AsMaster }
        requires zero { packet.to.number ≡ 0 }
        requires within { IsWithin steps (core_of self.old) }
        requires steps { steps ≤ most_steps }
        ensures { IfOk result (λ heard. IsHeard packet steps (core_of self.old) (core_of self.new) heard) }
    {
        spec_roles::law::step_ends();
        let machine = MachineNo(packet.from.number);
        let (heard, due) = self.hear_agent(alloc, packet)?;
        if !due {
            return Ok(heard);
        }
        let news = self.adopt_report(alloc, machine)?;
        self.end_step(alloc, &news, steps)?;
        Ok(heard)
    }

    // A packet of the application of a known job.
    fn heard_app(&mut self, alloc: Global, packet: Packet, steps: u64) -> Result<Reply, OutOfMemory>
        requires core { IsCore (core_of self.old) }
        requires formed { IsFormed packet }
        requires no_end { packet.kind ≡ Kind.End → ⊥ }
        requires from { packet.from.role ≡ AsApp }
        requires known { is_known self.old.known.jobs packet.from.number ≡ true }
        requires to { packet.to.role ≡ AsMaster }
        requires zero { packet.to.number ≡ 0 }
        requires within { IsWithin steps (core_of self.old) }
        requires steps { steps ≤ most_steps }
        ensures { IfOk result (λ heard. IsHeard packet steps (core_of self.old) (core_of self.new) heard) }
    {
        spec_roles::law::step_ends();
        let app = AppNo(packet.from.number);
        let (heard, change) = self.hear_app(alloc, packet)?;
        let fresh = heard.fresh();
        let taken = heard.is_taken();
        if !fresh && !taken {
            return Ok(heard);
        }
        let news = self.take_demand(alloc, app, fresh, taken, &change)?;
        self.end_step(alloc, &news, steps)?;
        Ok(heard)
    }

    // A job is known from now on, with no demand. The core is moved and not lent: where memory is refused within the
    // admission its table and its placer are not level.
    fn step_admit(
        self,
        alloc: Global,
        job: &Job,
        steps: u64,
    ) -> Result<(Core, Outcome), OutOfMemory>
        requires core { IsCore (core_of self) }
        requires unknown { is_known self.known.jobs job.now.number ≡ false }
        requires within { IsWithin steps (core_of self) }
        requires steps { steps ≤ most_steps }
        ensures { IfOk result (λ after. IsStep (MasterEvent.Admit job.now) steps (core_of self) (core_of after.0) after.1) }
    {
        let (mut core, news) = self.admit(alloc, job)?;
        core.end_step(alloc, &news, steps)?;
        Ok((core, Outcome::Done))
    }

    // A job has ended: its grants are gone.
    fn step_finish(&mut self, alloc: Global, app: AppNo, steps: u64) -> Result<Outcome, OutOfMemory>
        requires core { IsCore (core_of self.old) }
        requires known { is_known self.old.known.jobs app.0 ≡ true }
        requires within { IsWithin steps (core_of self.old) }
        requires steps { steps ≤ most_steps }
        ensures { IfOk result (λ outcome. IsStep (MasterEvent.Finish app) steps (core_of self.old) (core_of self.new) outcome) }
    {
        let news = self.end_job(alloc, app)?;
        self.end_step(alloc, &news, steps)?;
        Ok(Outcome::Done)
    }

    // A machine gets no grant from now on, and has none.
    fn step_ban(
        &mut self,
        alloc: Global,
        machine: MachineNo,
        steps: u64,
    ) -> Result<Outcome, OutOfMemory>
        requires core { IsCore (core_of self.old) }
        requires machine { machine.0 < most_machines }
        requires within { IsWithin steps (core_of self.old) }
        requires steps { steps ≤ most_steps }
        ensures { IfOk result (λ outcome. IsStep (MasterEvent.Ban machine) steps (core_of self.old) (core_of self.new) outcome) }
    {
        let news = self.ban(alloc, machine)?;
        self.end_step(alloc, &news, steps)?;
        Ok(Outcome::Done)
    }

    // A machine gets grants again.
    fn step_unban(
        &mut self,
        alloc: Global,
        machine: MachineNo,
        steps: u64,
    ) -> Result<Outcome, OutOfMemory>
        requires core { IsCore (core_of self.old) }
        requires machine { machine.0 < most_machines }
        requires within { IsWithin steps (core_of self.old) }
        requires steps { steps ≤ most_steps }
        ensures { IfOk result (λ outcome. IsStep (MasterEvent.Unban machine) steps (core_of self.old) (core_of self.new) outcome) }
    {
        let news = self.unban(alloc, machine);
        self.end_step(alloc, &news, steps)?;
        Ok(Outcome::Done)
    }

    // It serves from now on, where it does not serve yet.
    fn step_begin(&mut self, alloc: Global, steps: u64) -> Result<Outcome, OutOfMemory>
        requires core { IsCore (core_of self.old) }
        requires within { IsWithin steps (core_of self.old) }
        requires steps { steps ≤ most_steps }
        ensures { IfOk result (λ outcome. IsStep MasterEvent.Begin steps (core_of self.old) (core_of self.new) outcome) }
    {
        if self.serving {
            return Ok(Outcome::Refused(MasterRefusal::AlreadyServing));
        }
        let news = self.begin(alloc);
        self.end_step(alloc, &news, steps)?;
        Ok(Outcome::Done)
    }

    // It makes room for a unit that waits, where it serves and there are victims.
    fn step_preempt(&mut self, alloc: Global, steps: u64) -> Result<Outcome, OutOfMemory>
        requires core { IsCore (core_of self.old) }
        requires within { IsWithin steps (core_of self.old) }
        requires steps { steps ≤ most_steps }
        ensures { IfOk result (λ outcome. IsStep MasterEvent.Preempt steps (core_of self.old) (core_of self.new) outcome) }
    {
        if !self.serving {
            return Ok(Outcome::Refused(MasterRefusal::NotServing));
        }
        let found = self.preempt(alloc)?;
        if !found {
            return Ok(Outcome::Refused(MasterRefusal::NothingToPreempt));
        }
        let news = news(alloc, None, None);
        self.end_step(alloc, &news, steps)?;
        Ok(Outcome::Done)
    }
}
