//! Which names change where a unit is settled.

ghost use Rattle.std.specs.Prelude.{◌≡◌, ◌++◌, OnOk};
ghost use Rattle.work_plan.specs.NameChanges.{changed, turned};

use fuxi_terms::OutOfMemory;
use ledger_law::Key;
use schedule_unit::UnitNo;

// The kind of a key that names a worker.
const WORKER: u8 = 1;

// The number of a name that changes: 1 where its worker runs now, 0 where it did.
fn turned(before: bool, after: bool) -> Option<u64>
    ensures { result ≡ turned before after }
{
    match (before, after) {
        (true, false) => Some(0),
        (false, true) => Some(1),
        _ => None,
    }
}

// Appends the names of a unit that change.
pub fn push_changed(
    unit: UnitNo,
    before: &[bool; 256],
    after: &[bool; 256],
    numbers: &mut Vec<(Key, u64)>,
) -> Result<(), OutOfMemory>
    ensures { OnOk result (numbers.new.items ≡ numbers.old.items ++ changed unit.0 before.now after.now 256) }
{
    for number in 0..256u32 {
        let index = number as usize;
        let Some(named) = turned(before[index], after[index]) else {
            continue;
        };
        let key = Key {
            what: WORKER,
            unit: unit.0,
            number,
        };
        numbers.push((key, named))?;
    }
    Ok(())
}
