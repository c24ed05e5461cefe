ghost use Rattle.std.specs.Prelude.{◌≡◌, ◌≢◌, ℕ, ◌≤◌, length, OnOk, IfSome, Some, None, Err};
ghost use Rattle.fuxi_io.specs.Causes.{Rose};
ghost use Rattle.fuxi_io.specs.Reading.{rest_of, read_ahead};
ghost use Rattle.fuxi_terms.specs.Limits.{most_lines};
ghost use Rattle.input_lines.specs.Openings.{Opened};

use crate::law;
use crate::line::{content, is_skipped};
use crate::status::{cluster_status, no_cluster, stop_status};
use cluster_desc::{Cluster, read_cluster};
use fuxi_io::{Got, LimitOf, LineReader, LineStop, Source, Status};
use std::alloc::Global;

/// Reads lines up to the one that describes the cluster, the first that is not skipped. What stands behind it
/// is left in the reader. The reader has not stopped by a fault of the source.
pub fn read_cluster_line<S: Source>(
    alloc: Global,
    lines: &mut LineReader,
    source: &mut S,
) -> Result<Cluster, Status>
    requires { lines.old.stop ≢ Some LineStop.ReadFault }
    // What it answers, by the lines. It is said of a reader that has not stopped over bytes that are known.
    ensures opened { lines.old.stop ≡ None → IfSome (rest_of lines.old (S.left source.old)) (λ bytes. Opened lines.old.number bytes result lines.new (S.left source.new)) }
    ensures running { OnOk result (lines.new.stop ≡ None) }
    ensures ahead { length lines.new.pending ≤ read_ahead }
    ensures later { S.faults source.old ≤ S.faults source.new }
    ensures read { result ≡ Err Status.ReadFault → Rose (S.faults source.old) (S.faults source.new) }
    ensures served { result ≢ Err Status.ReadFault → S.faults source.new ≡ S.faults source.old }
    ensures limit { lines.old.stop ≡ None → (what : LimitOf) (kept : ℕ) → result ≡ Err (Status.Limit what kept) → (what ≡ LimitOf.Lines) × (kept ≡ most_lines) }
    ensures done { result ≢ Err Status.Done }
    ensures usage { result ≢ Err Status.Usage }
    ensures write { result ≢ Err Status.WriteFault }
    ensures disk { result ≢ Err Status.DiskFault }
    ensures stale { (fence : ℕ) → result ≢ Err (Status.StaleEpoch fence) }
    ensures damaged { (offset : ℕ) → result ≢ Err (Status.DamagedCheckpoint offset) }
{
    law::lines_are_taken();
    for turn in 0..1_000_001u64 {
        match lines.next(source) {
            Ok(Got::Line) => {}
            Ok(Got::End) => return Err(no_cluster(lines.number())),
            Err(stop) => return Err(stop_status(stop, lines.number())),
        }
        let number = lines.number();
        let line = content(lines.line(), lines.ended());
        if !is_skipped(line) {
            return match read_cluster(alloc, line) {
                Ok(cluster) => Ok(cluster),
                Err(fault) => Err(cluster_status(fault, number)),
            };
        }
        if !lines.ended() {
            return Err(no_cluster(number));
        }
    }
    unreachable!()
}
