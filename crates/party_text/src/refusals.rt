//! Why a master or its hard state refuses, as it is printed.

ghost use Rattle.std.specs.Prelude.{◌≡◌, ◌↔◌, None, Err, Result, IfSome};
ghost use Rattle.spec_roles.specs.HardState.{HardState};
ghost use Rattle.spec_roles.specs.Refusals.{Refusal as WrittenRefusal};
ghost use Rattle.schedule_text.specs.Printing.{as_refusal};
ghost use Rattle.hard_state.specs.HardFiles.{IsOpeningFault, Refuses};
ghost use Rattle.party_text.specs.PrintedRefusals.{master_refusal};

use fuxi_master::MasterRefusal;
use fuxi_terms::limits::MOST_RECORDS;
use hard_state::HardFault;
use schedule_text::Refusal;

/// The refusal that a fault of the hard state is. A damaged file, a fault of the disk and want of memory are none.
pub fn hard_refusal(fault: HardFault) -> Option<Refusal>
    ensures refused { IfSome result (λ refusal. (step : Result HardState WrittenRefusal) → Refuses step fault → step ≡ Err (as_refusal refusal)) }
    ensures none { (result ≡ None) ↔ IsOpeningFault fault }
{
    match fault {
        HardFault::Stale { fence } => Some(Refusal::NotRising(fence)),
        HardFault::Fenced { fence } => Some(Refusal::Fenced(fence)),
        HardFault::Known => Some(Refusal::Known),
        HardFault::NoJob => Some(Refusal::NoJob),
        HardFault::Ended => Some(Refusal::Ended),
        HardFault::AlreadyBanned => Some(Refusal::AlreadyBanned),
        HardFault::NotBanned => Some(Refusal::NotBanned),
        HardFault::Full => Some(Refusal::HardFull(MOST_RECORDS)),
        HardFault::NotCheckpoint { .. } | HardFault::DiskFault | HardFault::OutOfMemory => None,
    }
}

/// The refusal of a master.
pub fn master_refusal(refusal: MasterRefusal) -> Refusal
    ensures { result ≡ master_refusal refusal }
{
    match refusal {
        MasterRefusal::AlreadyServing => Refusal::AlreadyServing,
        MasterRefusal::NotServing => Refusal::NotServing,
        MasterRefusal::NothingToPreempt => Refusal::NothingToPreempt,
    }
}
