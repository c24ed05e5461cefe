//! The party of a node.

ghost use Rattle.std.specs.Prelude.{◌≡◌, ◌≢◌, ◌+◌, ◌<◌, ◌≤◌, ◌++◌, ℕ, Err, IfOk, OnOk, OnErr, Option, Some, None};
ghost use Rattle.fuxi_io.specs.Causes.{Rose};
ghost use Rattle.fuxi_io.specs.Disks.{Told as Moments, WhereTold};
ghost use Rattle.fuxi_terms.specs.Limits.{most_steps};
ghost use Rattle.schedule_text.specs.Writing.{IsLineEvent};
ghost use Rattle.node_core.specs.Roles.{Role};
ghost use Rattle.node_core.specs.PartyEvents.{IsCommanded, commanded, accepts};
ghost use Rattle.node_core.specs.NodeHalts.{FitsEither};
ghost use Rattle.node_core.specs.NodeTexts.{lines_text, party_lines, as_answer};

use crate::Core;
use fuxi_io::Disk;
use fuxi_terms::OutOfMemory;
use party_commands::CommandError;
use schedule_text::{Event, Refusal};
use std::alloc::Global;

/// What a party answers to an event.
#[derive(Clone, Copy, Drop, PartialEq, Eq)]
pub enum Answer {
    /// It was done, and nothing is printed.
    Done,
    /// It was refused, and nothing has changed.
    Refused(Refusal),
    /// It is one of another kind of node, and nothing has changed.
    NotHere,
}

/// The party of a node, which takes the lines that are no rounds. What its calls do is said of every party of the definitions that it
/// stands for. A command is at most one step.
pub trait Node: Core {
    ghost use Rattle.std.specs.Prelude.{◌≡◌, ◌≢◌, ◌+◌, ◌<◌, ◌≤◌, ◌++◌, ℕ, Err, IfOk, OnOk, OnErr, Option, Some, None};
    ghost use Rattle.fuxi_io.specs.Causes.{Rose};
    ghost use Rattle.fuxi_io.specs.Disks.{Told as Moments, WhereTold};
    ghost use Rattle.fuxi_terms.specs.Limits.{most_steps};
    ghost use Rattle.schedule_text.specs.Writing.{IsLineEvent};
    ghost use Rattle.node_core.specs.Roles.{Role};
    ghost use Rattle.node_core.specs.PartyEvents.{IsCommanded, commanded, accepts};
    ghost use Rattle.node_core.specs.NodeHalts.{FitsEither};
    ghost use Rattle.node_core.specs.NodeTexts.{lines_text, party_lines, as_answer};

    /// What a disk with these moments has of this party.
    ghost fits: { Role → Moments → Type 0 };

    /// What one has where a line was broken off, of the party before it or of the one behind it.
    ghost halts: { Role → Role → Moments → Type 0 };

    /// Whether it is called, and does not dial.
    fn accepts(&self) -> bool
        ensures { (r : Role) → Self.stands self.now r → result ≡ accepts r };

    /// Takes an event that a line can give. What has to outlast the node is on the disk before the party changes. Of a disk that tells its
    /// moments it keeps what `rests` says of these. A call of the disk that failed is told by `Disk` and nothing else.
    fn command<D: Disk>(
        self,
        alloc: Global,
        event: &Event,
        disk: &mut D,
    ) -> Result<(Self, Answer), CommandError>
        requires line { IsLineEvent event.now }
        requires steps { Self.steps self < most_steps }
        requires rests { Self.rests self (D.size disk.old) None }
        ensures does { IfOk result (λ after. (r : Role) → Self.stands self r → IsCommanded (Self.stands after.0) (as_answer after.1) (commanded r event.now)) }
        ensures steps { IfOk result (λ after. Self.steps after.0 ≤ Self.steps self + 1) }
        ensures rests { IfOk result (λ after. Self.rests after.0 (D.size disk.new) None) }
        ensures told { WhereTold (λ old new. Self.rests self (D.size disk.old) (Some old) → IfOk result (λ after. Self.rests after.0 (D.size disk.new) (Some new))) (D.told disk.old) (D.told disk.new) }
        ensures halts { OnErr result ((r : Role) → Self.stands self r → WhereTold (λ old new. Self.rests self (D.size disk.old) (Some old) → FitsEither fits halts r (commanded r event.now).role new) (D.told disk.old) (D.told disk.new)) }
        ensures later { D.faults disk.old ≤ D.faults disk.new }
        ensures cause { result ≡ Err CommandError.Disk → Rose (D.faults disk.old) (D.faults disk.new) }
        ensures served { result ≢ Err CommandError.Disk → D.faults disk.new ≡ D.faults disk.old };

    /// Appends the lines of its state. Where memory is refused a part of them may stand there.
    fn write_state(&self, out: &mut Vec<u8>) -> Result<(), OutOfMemory>
        ensures ok { OnOk result ((r : Role) → Self.stands self.now r → out.new.items ≡ out.old.items ++ lines_text (party_lines r)) };

    /// A disk that is as its commands need it, and that tells its moments, has what it should of each party that it stands for.
    ghost fitting: { (core : Self) (r : Role) (size : ℕ) (moments : Moments) → Self.stands core r → Self.rests core size (Some moments) → fits r moments };
}
