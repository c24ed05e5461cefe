//! What a line asks for a job, and the refusal that a fault of it is.

ghost use Rattle.std.specs.Prelude.{◌≡◌};
ghost use Rattle.schedule_text.specs.Asked.{job_refusal};

use crate::refusal::Refusal;
use schedule_unit::JobFault;

/// The refusal that a fault of what is asked for a job is; want of memory is none.
pub fn job_refusal(fault: JobFault) -> Option<Refusal>
    ensures { result ≡ job_refusal fault }
{
    match fault {
        JobFault::NoUnits => Some(Refusal::NoUnits),
        JobFault::TooManyUnits => Some(Refusal::TooManyUnits),
        JobFault::Dimensions(unit) => Some(Refusal::Dimensions(unit)),
        JobFault::PriorityRange(unit) => Some(Refusal::PriorityRange(unit)),
        JobFault::QuantityRange(unit) => Some(Refusal::QuantityRange(unit)),
        JobFault::ZeroSize(unit) => Some(Refusal::ZeroSize(unit)),
        JobFault::MostRange(unit) => Some(Refusal::MostRange(unit)),
        JobFault::OutOfMemory => None,
    }
}
