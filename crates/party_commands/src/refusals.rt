//! Why an order is refused.

ghost use Rattle.std.specs.Prelude.{◌≡◌, ◌≢◌, None, Err, IfOk, IfErr, IfSome, Result};
ghost use Rattle.spec_roles.specs.Apps.{AppRole};
ghost use Rattle.spec_roles.specs.HardState.{HardState};
ghost use Rattle.spec_roles.specs.Refusals.{Refusal as WrittenRefusal};
ghost use Rattle.schedule_text.specs.Printing.{as_refusal};
ghost use Rattle.hard_state.specs.HardFiles.{IsOpeningFault, Refuses};
ghost use Rattle.app_master.specs.AppCommands.{Names};

use crate::masters::CommandError;
use app_master::AppFault;
use fuxi_terms::limits::GREATEST_COUNT;
use hard_state::HardFault;
use party_text::hard_refusal;
use schedule_text::Refusal;

// Why an application refuses what it is asked; none where memory was refused.
pub(crate) fn app_refusal(fault: AppFault) -> Option<Refusal>
    ensures refused { IfSome result (λ refusal. (answer : Result AppRole WrittenRefusal) → Names fault answer → answer ≡ Err (as_refusal refusal)) }
    ensures none { result ≡ None → fault ≡ AppFault.OutOfMemory }
{
    match fault {
        AppFault::NoUnit => Some(Refusal::NoUnit),
        AppFault::NoMachine => Some(Refusal::NoMachine),
        AppFault::NoRack => Some(Refusal::NoRack),
        AppFault::WantRange => Some(Refusal::WantRange(GREATEST_COUNT)),
        AppFault::NotUsable { usable } => Some(Refusal::NotUsable(usable as u64)),
        AppFault::BackRange => Some(Refusal::BackRange),
        AppFault::OutOfMemory => None,
    }
}

/// The refusal that a fault of a writing is; a fault of the disk and want of memory are none. A damaged file does not come of a writing.
pub fn written_refusal(fault: HardFault) -> Result<Refusal, CommandError>
    ensures refused { IfOk result (λ refusal. (step : Result HardState WrittenRefusal) → Refuses step fault → step ≡ Err (as_refusal refusal)) }
    ensures served { IfOk result (λ refusal. fault ≢ HardFault.DiskFault) }
    ensures disk { result ≡ Err CommandError.Disk → fault ≡ HardFault.DiskFault }
    ensures told { IfErr result (λ halt. halt ≢ CommandError.Disk → fault ≢ HardFault.DiskFault) }
    // Want of memory is told of what is no refusal alone.
    ensures memory { result ≡ Err CommandError.Memory → IsOpeningFault fault }
{
    match hard_refusal(fault) {
        Some(refusal) => Ok(refusal),
        None => match fault {
            HardFault::DiskFault => Err(CommandError::Disk),
            _ => Err(CommandError::Memory),
        },
    }
}
