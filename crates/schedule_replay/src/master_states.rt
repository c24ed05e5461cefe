//! The lines of the masters.

ghost use Rattle.std.specs.Prelude.{T, OnOk};
ghost use Rattle.std.specs.Ordering.{nat_cmp};
ghost use Rattle.std.specs.FinMap.Entries.{is_sorted};
ghost use Rattle.spec_world.specs.World.{World};
ghost use Rattle.schedule_text.specs.Writing.{Begins};
ghost use Rattle.party_text.specs.Texts.{Shows};
ghost use Rattle.running_parties.specs.RunningMasters.{AreMastersOf};
ghost use Rattle.schedule_replay.specs.Parts.{show_masters};

use fuxi_master::Master;
use fuxi_terms::OutOfMemory;
use party_text::write_master;
use running_parties::{Slots, law};

// The masters, in the order of their epochs.
#[tactic(auto, using(spec_refinement::proofs::ShowsLemmas::begins_then))]
pub(crate) fn write_masters(masters: &Slots<Master>, out: &mut Vec<u8>) -> Result<(), OutOfMemory>
    ensures ok { OnOk result ((w : World) → AreMastersOf w masters.now → T (is_sorted nat_cmp w.masters) → Shows (show_masters w) out.old.items out.new.items) }
    ensures begins { Begins out.old.items out.new.items }
{
    law::epochs_alike();
    law::parties_run();
    for place in 0..masters.len() {
        let Some(master) = masters.get(masters.number(place)) else {
            continue;
        };
        match write_master(master, out) {
            Ok(()) => {}
            Err(refusal) => return Err(refusal),
        }
    }
    Ok(())
}
