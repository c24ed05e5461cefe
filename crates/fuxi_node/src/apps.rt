//! The node of an application.

ghost use Rattle.std.specs.Prelude.{◌≡◌, ◌≢◌, ◌<◌, ◌≤◌, ℕ, length, false, Some, None, Ok, IfSome, ⊤};
ghost use Rattle.fuxi_io.specs.Causes.{Rose};
ghost use Rattle.fuxi_io.specs.Reading.{rest_of};
ghost use Rattle.fuxi_terms.specs.Limits.{most_jobs, most_lines, most_units};
ghost use Rattle.input_lines.specs.Wholes.{IsReady};
ghost use Rattle.fuxi_io.specs.Doors.{WhereTold};
ghost use Rattle.fuxi_node.specs.NodeEnds.{Ended, EndsByLines, IsRunStatus};
ghost use Rattle.fuxi_node.specs.NodeStarts.{app_start};

use crate::run::run_node;
use crate::taking::DiskFailed;
use cluster_desc::Cluster;
use fuxi_io::law::is_little_ahead;
use fuxi_io::{Door, LimitOf, LineReader, LineStop, Sink, Source, Status};
use fuxi_terms::OutOfMemory;
use node_core::NoDisk;
use node_parties::AppNode;
use schedule_unit::AppNo;
use std::alloc::Global;

/// Runs the application of a job that has so many units, 1 to 8, in a boot of at least 1, over the lines behind that of the cluster, which
/// is the last one that the reader gave. It dials its master at the address, which has 1 to 255 bytes. The reader has not stopped. The
/// statuses are those of `run_agent`.
pub fn run_app<S: Source, O: Sink, N: Door>(
    alloc: Global,
    cluster: &Cluster,
    app: AppNo,
    boot: u64,
    units: u8,
    addr: &[u8],
    lines: &mut LineReader,
    source: &mut S,
    out: &mut O,
    door: &mut N,
) -> Status
    requires job { app.0 < most_jobs }
    requires units { units ≤ most_units }
    requires boot { 0 < boot }
    requires some { 1 ≤ length addr.now }
    requires short { length addr.now ≤ 255 }
    requires stop { lines.old.stop ≢ Some LineStop.ReadFault }
    // What was written and what the door has been through, by the status. It is said of bytes that are known, and of a door that tells.
    ensures ended { IsReady lines.old (S.left source.old) → IfSome (rest_of lines.old (S.left source.old)) (λ bytes. WhereTold (Ended (λ q. ⊤) (λ q p. ⊤) (app_start cluster.now app.0 units boot addr.now lines.old.number) bytes (Ok result) (S.left source.new) (O.took out.old) (O.took out.new) (N.faults door.old) (N.faults door.new)) (N.told door.old) (N.told door.new)) }
    // Where the lines end, by the status. It is said over any door.
    ensures places { IsReady lines.old (S.left source.old) → IfSome (rest_of lines.old (S.left source.old)) (λ bytes. EndsByLines lines.old.number bytes (Ok result) (S.left source.new)) }
    ensures unread { lines.old.ended ≡ false → result ≢ Status.ReadFault }
    ensures read { result ≡ Status.ReadFault → Rose (S.faults source.old) (S.faults source.new) }
    ensures write { result ≡ Status.WriteFault → Rose (O.faults out.old) (O.faults out.new) }
    ensures reads_served { result ≢ Status.ReadFault → S.faults source.new ≡ S.faults source.old }
    ensures writes_served { result ≢ Status.WriteFault → O.faults out.new ≡ O.faults out.old }
    ensures limit { lines.old.stop ≡ None → (what : LimitOf) (kept : ℕ) → result ≡ Status.Limit what kept → (what ≡ LimitOf.Lines) × (kept ≡ most_lines) }
    ensures own { IsRunStatus result }
{
    // It ended before its first line where it did not start, and what was read ahead is then little.
    is_little_ahead(lines);
    match AppNode::start(alloc, app, units, cluster, boot) {
        Ok(node) => match run_node(
            alloc,
            node,
            addr,
            lines,
            source,
            out,
            door,
            &mut NoDisk::new(),
        ) {
            Ok(status) => status,
            Err(DiskFailed) => unreachable!(),
        },
        Err(OutOfMemory) => Status::OutOfMemory,
    }
}
