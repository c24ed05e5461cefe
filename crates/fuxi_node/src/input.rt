//! A node over an input.

ghost use Rattle.std.specs.Prelude.{◌≡◌, ◌≢◌, ◌⊎◌, ◌<◌, ◌≤◌, ℕ, List, length, false, Some, None, IfSome};
ghost use Rattle.fuxi_io.specs.Causes.{Rose};
ghost use Rattle.fuxi_io.specs.Reading.{rest_of};
ghost use Rattle.fuxi_terms.specs.Limits.{most_lines};
ghost use Rattle.hard_state.specs.HardFiles.{KeepsDamaged};
ghost use Rattle.input_lines.specs.Wholes.{IsReady};
ghost use Rattle.fuxi_io.specs.Doors.{WhereTold};
ghost use Rattle.fuxi_io.specs.Lines.{lines_of};
ghost use Rattle.input_lines.specs.Openings.{Opens};
ghost use Rattle.fuxi_node.specs.NodeEnds.{EndsBy};
ghost use Rattle.fuxi_node.specs.NodeInputs.{HasNoCluster, IsKind, LeavesDisk, MayStart, NodeEnded, InputEnded, InputEndsBy, TellsDisk, ending_behind, ending_of, status_at};
ghost use Rattle.fuxi_node.specs.declared.kind.NodeKind.TheVariants.{Master};

use crate::agents::run_agent;
use crate::apps::run_app;
use crate::kind::NodeKind;
use crate::masters::run_master;
use cluster_desc::Cluster;
use fuxi_io::{Disk, Door, LimitOf, LineReader, LineStop, Sink, Source, Status};
use input_lines::read_cluster_line;
use std::alloc::Global;

// Runs a node over the lines behind that of the cluster, which is the last one that the reader gave.
fn run_kind<S: Source, O: Sink, D: Disk, N: Door>(
    alloc: Global,
    kind: NodeKind,
    addr: &[u8],
    cluster: &Cluster,
    lines: &mut LineReader,
    source: &mut S,
    out: &mut O,
    disk: &mut D,
    door: &mut N,
) -> Status
    requires kind { IsKind kind }
    requires some { 1 ≤ length addr.now }
    requires short { length addr.now ≤ 255 }
    requires stop { lines.old.stop ≢ Some LineStop.ReadFault }
    ensures ended { IsReady lines.old (S.left source.old) → IfSome (rest_of lines.old (S.left source.old)) (λ bytes. WhereTold (NodeEnded kind addr.now (D.told disk.old) (D.told disk.new) cluster.now lines.old.number bytes result (S.left source.new) (O.took out.old) (O.took out.new) (N.faults door.old) (N.faults door.new)) (N.told door.old) (N.told door.new)) }
    ensures places { IsReady lines.old (S.left source.old) → IfSome (rest_of lines.old (S.left source.old)) (λ bytes. EndsBy (ending_behind kind (Opens cluster.now lines.old.number (lines_of bytes))) result (S.left source.new)) }
    ensures told { TellsDisk kind result (D.told disk.old) }
    ensures stays { LeavesDisk kind result (D.told disk.old) (D.told disk.new) }
    ensures keeps { KeepsDamaged (D.told disk.old) (D.told disk.new) }
    ensures unused { ((epoch : ℕ) → kind ≢ Master epoch) → disk.new ≡ disk.old }
    ensures unread { lines.old.ended ≡ false → result ≢ Status.ReadFault }
    ensures read { result ≡ Status.ReadFault → Rose (S.faults source.old) (S.faults source.new) }
    ensures write { result ≡ Status.WriteFault → Rose (O.faults out.old) (O.faults out.new) }
    ensures disk { result ≡ Status.DiskFault → Rose (D.faults disk.old) (D.faults disk.new) }
    ensures limit { lines.old.stop ≡ None → (kept : ℕ) → result ≡ Status.Limit LimitOf.Lines kept → kept ≡ most_lines }
    ensures usage { result ≢ Status.Usage }
    ensures reads_served { result ≢ Status.ReadFault → S.faults source.new ≡ S.faults source.old }
    ensures writes_served { result ≢ Status.WriteFault → O.faults out.new ≡ O.faults out.old }
    ensures disk_served { result ≢ Status.DiskFault → D.faults disk.new ≡ D.faults disk.old }
{
    match kind {
        NodeKind::Master { epoch } => run_master(
            alloc, cluster, epoch, addr, lines, source, out, disk, door,
        ),
        NodeKind::Agent { machine, boot } => run_agent(
            alloc, cluster, machine, boot, addr, lines, source, out, door,
        ),
        NodeKind::App { app, boot, units } => run_app(
            alloc, cluster, app, boot, units, addr, lines, source, out, door,
        ),
    }
}

/// Runs a node over an input, whose first line that is not skipped describes the cluster; the others are lines of the node. The address has
/// 1 to 255 bytes. Only a master uses the disk, which holds its checkpoint.
///
/// `BadInput` with `NoMachine`, at the line of the cluster: it has no machine of the agent's number. The other statuses are those of
/// each kind of node, also for the lines before that of the cluster.
pub fn run_input<S: Source, O: Sink, D: Disk, N: Door>(
    alloc: Global,
    kind: NodeKind,
    addr: &[u8],
    source: &mut S,
    out: &mut O,
    disk: &mut D,
    door: &mut N,
) -> Status
    requires kind { IsKind kind }
    requires some { 1 ≤ length addr.now }
    requires short { length addr.now ≤ 255 }
    // What was written and what the door has been through, by the status. It is said of bytes that are known, and of a door that tells; what is said of the file, of a disk that tells.
    ensures ended { IfSome (S.left source.old) (λ bytes. WhereTold (InputEnded kind addr.now (D.told disk.old) (D.told disk.new) bytes result (S.left source.new) (O.took out.old) (O.took out.new) (N.faults door.old) (N.faults door.new)) (N.told door.old) (N.told door.new)) }
    // Where the lines end, by the status. It is said over any door.
    ensures places { IfSome (S.left source.old) (λ bytes. InputEndsBy kind bytes result (S.left source.new)) }
    ensures told { TellsDisk kind result (D.told disk.old) }
    // The file of a master that did not get to its lines: by the status, and where no line describes a cluster.
    ensures stays { LeavesDisk kind result (D.told disk.old) (D.told disk.new) }
    // A file with a damaged record is as it was, whatever the status.
    ensures keeps { KeepsDamaged (D.told disk.old) (D.told disk.new) }
    ensures unopened { (bytes : List ℕ) → S.left source.old ≡ Some bytes → HasNoCluster bytes → disk.new ≡ disk.old }
    ensures unused { ((epoch : ℕ) → kind ≢ Master epoch) → disk.new ≡ disk.old }
    ensures read { result ≡ Status.ReadFault → Rose (S.faults source.old) (S.faults source.new) }
    ensures write { result ≡ Status.WriteFault → Rose (O.faults out.old) (O.faults out.new) }
    ensures disk { result ≡ Status.DiskFault → Rose (D.faults disk.old) (D.faults disk.new) }
    ensures limit { (kept : ℕ) → result ≡ Status.Limit LimitOf.Lines kept → kept ≡ most_lines }
    ensures usage { result ≢ Status.Usage }
    // Each count of faults rose with its own status alone, so a call that failed is told.
    ensures reads_served { result ≢ Status.ReadFault → S.faults source.new ≡ S.faults source.old }
    ensures writes_served { result ≢ Status.WriteFault → O.faults out.new ≡ O.faults out.old }
    ensures disk_served { result ≢ Status.DiskFault → D.faults disk.new ≡ D.faults disk.old }
    // A node with a file that lets its epoch in, and with no fault of the source, the sink and the disk, ends as its lines say, but for want of memory. It is said over any door.
    ensures complete { (bytes : List ℕ) → S.left source.old ≡ Some bytes → MayStart kind (D.told disk.old)
        → (Rose (S.faults source.old) (S.faults source.new) → ⊥) → (Rose (O.faults out.old) (O.faults out.new) → ⊥) → (Rose (D.faults disk.old) (D.faults disk.new) → ⊥)
        → (result ≡ status_at (ending_of kind bytes)) ⊎ (result ≡ Status.OutOfMemory) }
{
    let mut lines = match LineReader::new(alloc) {
        Ok(lines) => lines,
        Err(_) => return Status::OutOfMemory,
    };
    let cluster = match read_cluster_line(alloc, &mut lines, source) {
        Ok(cluster) => cluster,
        Err(status) => return status,
    };
    run_kind(
        alloc, kind, addr, &cluster, &mut lines, source, out, disk, door,
    )
}
