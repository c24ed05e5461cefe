//! Why an event is refused.

ghost use Rattle.std.specs.Prelude.{◌≡◌, ◌++◌, ◌∷◌, [], map, OnOk, OnErr, decimal};
ghost use Rattle.schedule_text.specs.PrintedLines.{refusal_words};
ghost use Rattle.schedule_text.specs.Printing.{as_refusal};
ghost use Rattle.schedule_text.specs.Writing.{blanked, Begins};

use crate::write::{push_blanked, push_numbers};
use fuxi_terms::OutOfMemory;
use schedule_unit::UnitNo;

/// Why an event is refused, with the value that is printed with it. A refused event changes nothing.
#[derive(Clone, Copy, Drop, PartialEq, Eq)]
pub enum Refusal {
    /// The party does not run.
    NotRunning,
    /// The incarnation is not above this one, which is the fence or the last boot.
    NotRising(u64),
    /// So many masters run already.
    TooManyMasters(u64),
    /// The hard state has so many records already.
    HardFull(u64),
    /// The fence is above the epoch.
    Fenced(u64),
    /// The cluster has no such machine.
    NoMachine,
    /// The cluster has no machine in such a rack.
    NoRack,
    /// The cluster has no such group.
    NoGroup,
    /// No such job was submitted.
    NoJob,
    /// The job has no such unit.
    NoUnit,
    /// A job of this number was submitted already.
    Known,
    /// The job has ended.
    Ended,
    /// The machine is banned.
    AlreadyBanned,
    /// The machine is not banned.
    NotBanned,
    /// The master serves already.
    AlreadyServing,
    /// The master does not serve yet.
    NotServing,
    /// No waiting unit has victims.
    NothingToPreempt,
    /// The count is above the greatest, which is this.
    WantRange(u64),
    /// Fewer grants may be given back there, namely so many.
    NotUsable(u64),
    /// The number given back would pass its limit.
    BackRange,
    /// Fewer packets were sent, namely so many.
    NoPacket(u64),
    /// The job asks for no unit.
    NoUnits,
    /// The job asks for too many units.
    TooManyUnits,
    /// The unit asks not as many quantities as the cluster has resources.
    Dimensions(UnitNo),
    /// The unit's priority is above 9.
    PriorityRange(UnitNo),
    /// A quantity of the unit is too great.
    QuantityRange(UnitNo),
    /// Each quantity of the unit is 0.
    ZeroSize(UnitNo),
    /// The greatest number of the unit's grants on one machine is 0 or above 100,000.
    MostRange(UnitNo),
}

// The name of a refusal, and its value where it has one.
pub fn push_refusal(out: &mut Vec<u8>, refusal: &Refusal) -> Result<(), OutOfMemory>
    ensures ok { OnOk result (out.new.items ≡ out.old.items ++ blanked (refusal_words (as_refusal refusal.now))) }
    ensures err { OnErr result (Begins out.old.items out.new.items) }
{
    match refusal {
        Refusal::NotRunning => push_name(out, b"NotRunning", &[]),
        Refusal::NotRising(known) => push_name(out, b"NotRising", &[*known]),
        Refusal::TooManyMasters(most) => push_name(out, b"TooManyMasters", &[*most]),
        Refusal::HardFull(most) => push_name(out, b"HardFull", &[*most]),
        Refusal::Fenced(fence) => push_name(out, b"Fenced", &[*fence]),
        Refusal::NoMachine => push_name(out, b"NoMachine", &[]),
        Refusal::NoRack => push_name(out, b"NoRack", &[]),
        Refusal::NoGroup => push_name(out, b"NoGroup", &[]),
        Refusal::NoJob => push_name(out, b"NoJob", &[]),
        Refusal::NoUnit => push_name(out, b"NoUnit", &[]),
        Refusal::Known => push_name(out, b"Known", &[]),
        Refusal::Ended => push_name(out, b"Ended", &[]),
        Refusal::AlreadyBanned => push_name(out, b"AlreadyBanned", &[]),
        Refusal::NotBanned => push_name(out, b"NotBanned", &[]),
        Refusal::AlreadyServing => push_name(out, b"AlreadyServing", &[]),
        Refusal::NotServing => push_name(out, b"NotServing", &[]),
        Refusal::NothingToPreempt => push_name(out, b"NothingToPreempt", &[]),
        Refusal::WantRange(most) => push_name(out, b"WantRange", &[*most]),
        Refusal::NotUsable(usable) => push_name(out, b"NotUsable", &[*usable]),
        Refusal::BackRange => push_name(out, b"BackRange", &[]),
        Refusal::NoPacket(sent) => push_name(out, b"NoPacket", &[*sent]),
        Refusal::NoUnits => push_name(out, b"NoUnits", &[]),
        Refusal::TooManyUnits => push_name(out, b"TooManyUnits", &[]),
        Refusal::Dimensions(unit) => push_name(out, b"Dimensions", &[unit.0 as u64]),
        Refusal::PriorityRange(unit) => push_name(out, b"PriorityRange", &[unit.0 as u64]),
        Refusal::QuantityRange(unit) => push_name(out, b"QuantityRange", &[unit.0 as u64]),
        Refusal::ZeroSize(unit) => push_name(out, b"ZeroSize", &[unit.0 as u64]),
        Refusal::MostRange(unit) => push_name(out, b"MostRange", &[unit.0 as u64]),
    }
}

// A name and numbers, each with a blank before it.
fn push_name(out: &mut Vec<u8>, name: &[u8], numbers: &[u64]) -> Result<(), OutOfMemory>
    ensures ok { OnOk result (out.new.items ≡ out.old.items ++ blanked (name.now ∷ map decimal numbers.now)) }
    ensures err { OnErr result (Begins out.old.items out.new.items) }
{
    push_blanked(out, name)?;
    push_numbers(out, numbers)
}
