//! The node of a master.

ghost use Rattle.std.specs.Prelude.{◌≡◌, ◌≢◌, ◌⊎◌, ◌<◌, ◌≤◌, ℕ, length, false, Some, None, Ok, IfSome};
ghost use Rattle.fuxi_io.specs.Causes.{Rose};
ghost use Rattle.fuxi_io.specs.Reading.{rest_of};
ghost use Rattle.fuxi_terms.specs.Limits.{most_lines};
ghost use Rattle.hard_state.specs.HardFiles.{KeepsDamaged};
ghost use Rattle.input_lines.specs.Wholes.{IsReady};
ghost use Rattle.fuxi_io.specs.Doors.{WhereTold};
ghost use Rattle.fuxi_node.specs.NodeEnds.{EndsByLines};
ghost use Rattle.fuxi_node.specs.NodeStarts.{master_start};
ghost use Rattle.fuxi_node.specs.MasterEnds.{LeavesFile, MasterEnded, TellsFile, start_status};

use crate::run::run_node;
use crate::taking::DiskFailed;
use cluster_desc::Cluster;
use fuxi_io::law::is_little_ahead;
use fuxi_io::{Disk, Door, LimitOf, LineReader, LineStop, Sink, Source, Status};
use fuxi_terms::limits::MOST_RECORDS;
use hard_state::HardFault;
use node_parties::MasterNode;
use std::alloc::Global;

// The status of a master that did not start.
fn start_status(fault: HardFault) -> Status
    ensures { result ≡ start_status fault }
{
    match fault {
        HardFault::Stale { fence } => Status::StaleEpoch { fence },
        HardFault::NotCheckpoint { offset } => Status::DamagedCheckpoint { offset },
        HardFault::Full => Status::Limit {
            what: LimitOf::Records,
            kept: MOST_RECORDS,
        },
        HardFault::DiskFault => Status::DiskFault,
        _ => Status::OutOfMemory,
    }
}

/// Runs the master of an epoch of at least 1 over the lines behind that of the cluster, which is the last one that the reader gave. It
/// opens the checkpoint and raises its fence before it takes a line, and is called by its agents and applications at the address, which has
/// 1 to 255 bytes. The reader has not stopped.
///
/// `DiskFault`: the disk failed, at the start or at a line; the checkpoint has to be opened again. `DamagedCheckpoint`: what stands at this
/// offset of the file is no record. `StaleEpoch`: the fence in the file is at least the epoch. `Limit` of records: the file has 65,536.
/// With these three the file stands for what it stood for. The other statuses are those of `run_agent`. A file with a damaged record is
/// synced at most, whatever the status.
///
/// At every end of a master that started, a crash leaves a file that stands for the hard state of the lines taken. With `DiskFault` and
/// `OutOfMemory` the line at which it came may count as taken or not.
pub fn run_master<S: Source, O: Sink, D: Disk, N: Door>(
    alloc: Global,
    cluster: &Cluster,
    epoch: u64,
    addr: &[u8],
    lines: &mut LineReader,
    source: &mut S,
    out: &mut O,
    disk: &mut D,
    door: &mut N,
) -> Status
    requires epoch { 0 < epoch }
    requires some { 1 ≤ length addr.now }
    requires short { length addr.now ≤ 255 }
    requires stop { lines.old.stop ≢ Some LineStop.ReadFault }
    // What was written and what the door has been through, by the status. It is said of bytes that are known, and of a door that tells; what is said of the file, of a disk that tells.
    ensures ended { IsReady lines.old (S.left source.old) → IfSome (rest_of lines.old (S.left source.old)) (λ bytes. WhereTold (MasterEnded epoch (master_start cluster.now epoch addr.now lines.old.number) (D.told disk.old) (D.told disk.new) bytes result (S.left source.new) (O.took out.old) (O.took out.new) (N.faults door.old) (N.faults door.new)) (N.told door.old) (N.told door.new)) }
    ensures file { TellsFile epoch result (D.told disk.old) }
    ensures stays { LeavesFile epoch result (D.told disk.old) (D.told disk.new) }
    ensures keeps { KeepsDamaged (D.told disk.old) (D.told disk.new) }
    // Where the lines end, by the status. It is said over any door.
    ensures places { IsReady lines.old (S.left source.old) → IfSome (rest_of lines.old (S.left source.old)) (λ bytes. EndsByLines lines.old.number bytes (Ok result) (S.left source.new)) }
    ensures unread { lines.old.ended ≡ false → result ≢ Status.ReadFault }
    ensures read { result ≡ Status.ReadFault → Rose (S.faults source.old) (S.faults source.new) }
    ensures write { result ≡ Status.WriteFault → Rose (O.faults out.old) (O.faults out.new) }
    ensures disk { result ≡ Status.DiskFault → Rose (D.faults disk.old) (D.faults disk.new) }
    ensures limit { lines.old.stop ≡ None → (what : LimitOf) (kept : ℕ) → result ≡ Status.Limit what kept → (what ≡ LimitOf.Records) ⊎ ((what ≡ LimitOf.Lines) × (kept ≡ most_lines)) }
    ensures usage { result ≢ Status.Usage }
    ensures reads_served { result ≢ Status.ReadFault → S.faults source.new ≡ S.faults source.old }
    ensures writes_served { result ≢ Status.WriteFault → O.faults out.new ≡ O.faults out.old }
    ensures disk_served { result ≢ Status.DiskFault → D.faults disk.new ≡ D.faults disk.old }
{
    // It ended before its first line where it did not start, and what was read ahead is then little.
    is_little_ahead(lines);
    let node = match MasterNode::open(alloc, cluster, epoch, disk) {
        Ok(node) => node,
        Err(fault) => return start_status(fault),
    };
    match run_node(alloc, node, addr, lines, source, out, door, disk) {
        Ok(status) => status,
        Err(DiskFailed) => Status::DiskFault,
    }
}
