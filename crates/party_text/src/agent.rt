//! The lines of an agent.

ghost use Rattle.std.specs.Prelude.{◌≡◌, ◌<◌, ℕ, [], ◌∷◌, length, map, Some, slice_get, OnOk};
ghost use Rattle.fuxi_terms.specs.Keys.{RowKey};
ghost use Rattle.spec_roles.specs.Agents.{AgentRole};
ghost use Rattle.schedule_text.specs.Writing.{Begins};
ghost use Rattle.agent_core.specs.AgentCores.{StandsFor};
ghost use Rattle.spec_refinement.specs.States.{row_line, agent_lines};
ghost use Rattle.party_text.specs.Texts.{Shows};

use crate::line::write_line;
use agent_core::Agent;
use fuxi_terms::OutOfMemory;
use party_ledgers::RowLedger;
use schedule_text::Output;
use schedule_unit::MachineNo;

// The line of an entry of the table.
fn write_row(
    machine: MachineNo,
    table: &RowLedger,
    index: usize,
    out: &mut Vec<u8>,
) -> Result<(), OutOfMemory>
    requires { index < length table.now }
    ensures ok { OnOk result ((e : RowKey × ℕ) → slice_get table.now index ≡ Some e → Shows (row_line machine.0 e ∷ []) out.old.items out.new.items) }
    ensures begins { Begins out.old.items out.new.items }
{
    let entry = table.at(index);
    write_line(
        &Output::Row(machine, entry.app, entry.unit, entry.count),
        out,
    )
}

// The lines of the table.
fn write_rows(machine: MachineNo, table: &RowLedger, out: &mut Vec<u8>) -> Result<(), OutOfMemory>
    ensures ok { OnOk result (Shows (map (row_line machine.0) table.now) out.old.items out.new.items) }
    ensures begins { Begins out.old.items out.new.items }
{
    for index in 0..table.len() {
        match write_row(machine, table, index, out) {
            Ok(()) => {}
            Err(refusal) => return Err(refusal),
        }
    }
    Ok(())
}

/// Appends the lines of the agent of a machine: its boot and its place, and its table. A refusal may leave some of them behind what was
/// there.
#[tactic(auto, using(spec_refinement::proofs::ShowsLemmas::begins_then))]
pub fn write_agent(agent: &Agent, machine: MachineNo, out: &mut Vec<u8>) -> Result<(), OutOfMemory>
    requires number { machine.0 ≡ agent.now.machine }
    ensures ok { OnOk result ((r : AgentRole) → StandsFor agent.now r → Shows (agent_lines r) out.old.items out.new.items) }
    ensures begins { Begins out.old.items out.new.items }
{
    let place = agent.place();
    match write_line(
        &Output::Agent(machine, agent.boot(), place.inc, place.seq),
        out,
    ) {
        Ok(()) => {}
        Err(refusal) => return Err(refusal),
    }
    match write_rows(machine, agent.table(), out) {
        Ok(()) => Ok(()),
        Err(refusal) => Err(refusal),
    }
}
