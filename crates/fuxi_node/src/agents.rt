//! The node of an agent.

ghost use Rattle.std.specs.Prelude.{◌≡◌, ◌≢◌, ◌<◌, ◌≤◌, ℕ, length, false, Some, None, IfSome};
ghost use Rattle.fuxi_io.specs.Causes.{Rose};
ghost use Rattle.fuxi_io.specs.Reading.{rest_of};
ghost use Rattle.fuxi_terms.specs.Limits.{most_lines, most_machines};
ghost use Rattle.input_lines.specs.Wholes.{IsReady};
ghost use Rattle.fuxi_io.specs.Doors.{WhereTold};
ghost use Rattle.fuxi_io.specs.Lines.{lines_of};
ghost use Rattle.input_lines.specs.Openings.{Opens};
ghost use Rattle.fuxi_node.specs.NodeEnds.{EndsBy};
ghost use Rattle.fuxi_node.specs.NodeInputs.{NodeEnded, TellsDisk, ending_behind};
ghost use Rattle.fuxi_node.specs.declared.kind.NodeKind.TheVariants.{Agent};

use crate::run::run_node;
use crate::taking::DiskFailed;
use cluster_desc::Cluster;
use fuxi_io::law::is_little_ahead;
use fuxi_io::{Door, InputFault, LimitOf, LineReader, LineStop, Sink, Source, Status};
use fuxi_terms::OutOfMemory;
use node_core::NoDisk;
use node_parties::AgentNode;
use schedule_unit::MachineNo;
use std::alloc::Global;

/// Runs the agent of a machine, in a boot of at least 1, over the lines behind that of the cluster, which is the last one that the reader
/// gave. It dials its master at the address, which has 1 to 255 bytes. The reader has not stopped.
///
/// `Done`: the input was read to its end, and behind it stands the state. `BadInput`: the cluster has no such machine, at its line, or a line
/// is none of a node. `ReadFault` and `WriteFault`: the source or the sink failed. `Limit`: there are more than 1,000,000 lines.
/// `OutOfMemory`: memory was refused. A fault of the door is a line of its round, and never ends a node.
pub fn run_agent<S: Source, O: Sink, N: Door>(
    alloc: Global,
    cluster: &Cluster,
    machine: MachineNo,
    boot: u64,
    addr: &[u8],
    lines: &mut LineReader,
    source: &mut S,
    out: &mut O,
    door: &mut N,
) -> Status
    requires machine { machine.0 < most_machines }
    requires boot { 0 < boot }
    requires some { 1 ≤ length addr.now }
    requires short { length addr.now ≤ 255 }
    requires stop { lines.old.stop ≢ Some LineStop.ReadFault }
    // What was written and what the door has been through, by the status. It is said of bytes that are known, and of a door that tells.
    ensures ended { IsReady lines.old (S.left source.old) → IfSome (rest_of lines.old (S.left source.old)) (λ bytes. WhereTold (NodeEnded (Agent machine boot) addr.now None None cluster.now lines.old.number bytes result (S.left source.new) (O.took out.old) (O.took out.new) (N.faults door.old) (N.faults door.new)) (N.told door.old) (N.told door.new)) }
    // Where the lines end, by the status. It is said over any door.
    ensures places { IsReady lines.old (S.left source.old) → IfSome (rest_of lines.old (S.left source.old)) (λ bytes. EndsBy (ending_behind (Agent machine boot) (Opens cluster.now lines.old.number (lines_of bytes))) result (S.left source.new)) }
    ensures disk { TellsDisk (Agent machine boot) result None }
    ensures unread { lines.old.ended ≡ false → result ≢ Status.ReadFault }
    ensures read { result ≡ Status.ReadFault → Rose (S.faults source.old) (S.faults source.new) }
    ensures write { result ≡ Status.WriteFault → Rose (O.faults out.old) (O.faults out.new) }
    ensures reads_served { result ≢ Status.ReadFault → S.faults source.new ≡ S.faults source.old }
    ensures writes_served { result ≢ Status.WriteFault → O.faults out.new ≡ O.faults out.old }
    ensures limit { lines.old.stop ≡ None → (what : LimitOf) (kept : ℕ) → result ≡ Status.Limit what kept → (what ≡ LimitOf.Lines) × (kept ≡ most_lines) }
    ensures usage { result ≢ Status.Usage }
{
    // It ended before its first line where it did not start, and what was read ahead is then little.
    is_little_ahead(lines);
    if machine.0 >= cluster.machines() {
        return Status::BadInput {
            line: lines.number(),
            fault: InputFault::NoMachine,
        };
    }
    let has = cluster.machine(machine).has;
    match AgentNode::start(alloc, machine, has, boot) {
        Ok(node) => match run_node(
            alloc,
            node,
            addr,
            lines,
            source,
            out,
            door,
            &mut NoDisk::new(),
        ) {
            Ok(status) => status,
            Err(DiskFailed) => unreachable!(),
        },
        Err(OutOfMemory) => Status::OutOfMemory,
    }
}
