ghost use Rattle.std.specs.Prelude.{◌≡◌};
ghost use Rattle.wire_frames.specs.Names.{name_of, found_of};

use ledger_law::OutOfMemory;

/// Why bytes begin with no frame: the first of these tests that fails, in this order.
#[derive(Clone, Copy, Debug, Drop, PartialEq, Eq)]
pub enum FrameFault {
    /// Fewer than 4 bytes stand, or fewer than the length says, which is itself tested before that.
    Short,
    /// The length is this, below 44 or above 262,188.
    Length(u32),
    /// The version is this and not 1.
    Version(u8),
    /// There is no kind of this number.
    Kind(u8),
    /// The parties are not the master and an agent or an application, or the sender has no incarnation.
    Role,
    /// The place is none of the kind and the sender.
    Place,
    /// The body is none of the channel and the kind.
    Body,
    /// Memory was refused.
    OutOfMemory,
}

impl From<OutOfMemory> for FrameFault {
    ghost use Rattle.wire_frames.specs.declared.fault.FrameFault.TheVariants.{OutOfMemory as WantOfMemory};
    ghost use Rattle.std.specs.Prelude.{◌≡◌};

    ghost from_gives = { λ _ fault. fault ≡ WantOfMemory };

    fn from(_error: OutOfMemory) -> FrameFault {
        FrameFault::OutOfMemory
    }
}

impl FrameFault {
    /// The name as it is printed.
    pub fn name(&self) -> &'static str
        ensures { result.now ≡ name_of self.now }
    {
        match self {
            FrameFault::Short => "Short",
            FrameFault::Length(_) => "Length",
            FrameFault::Version(_) => "Version",
            FrameFault::Kind(_) => "Kind",
            FrameFault::Role => "Role",
            FrameFault::Place => "Place",
            FrameFault::Body => "Body",
            FrameFault::OutOfMemory => "OutOfMemory",
        }
    }

    /// The number that is printed behind the name: the length, the version or the kind that was found.
    pub fn found(&self) -> Option<u32>
        ensures { result ≡ found_of self.now }
    {
        match self {
            FrameFault::Length(n) => Some(*n),
            FrameFault::Version(n) | FrameFault::Kind(n) => Some(u32::from(*n)),
            _ => None,
        }
    }
}
