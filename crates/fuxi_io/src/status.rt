ghost use Rattle.std.specs.Prelude.{◌≡◌};
ghost use Rattle.fuxi_io.specs.Statuses.{code_of};

use fuxi_terms::ClusterKey;

/// How a command ended.
#[derive(Clone, Copy, Debug, Drop, PartialEq, Eq)]
pub enum Status {
    /// The command ran and, where it reads an input, that was read to its end.
    Done,
    /// The words are no command.
    Usage,
    /// The line with this number, from 1, is no line of the input's form.
    BadInput { line: u64, fault: InputFault },
    /// The source of the input failed.
    ReadFault,
    /// The sink of the output failed.
    WriteFault,
    /// A limit was reached. `kept` is the number that stands so far.
    Limit { what: LimitOf, kept: u64 },
    /// Memory was refused.
    OutOfMemory,
    /// The disk of the checkpoint failed.
    DiskFault,
    /// The fence in the checkpoint is at least the epoch of the master.
    StaleEpoch { fence: u64 },
    /// What stands at this offset of the checkpoint is no record.
    DamagedCheckpoint { offset: u64 },
}

/// What a limit counts.
#[derive(Clone, Copy, Debug, Drop, PartialEq, Eq)]
pub enum LimitOf {
    /// The lines of the input, at most 1,000,000.
    Lines,
    /// The packets of a run, at most 1,000,000.
    Packets,
    /// The bytes of the frames of all packets of a run, at most 2^30.
    Bytes,
    /// The records of a checkpoint, at most 65,536.
    Records,
    /// The calls of all sessions of a desk, at most 10,000.
    Calls,
}

/// Why a line of the input was refused.
#[derive(Clone, Copy, Debug, Drop, PartialEq, Eq)]
pub enum InputFault {
    /// Its first word, or the second of two that name the event, is none that is known.
    UnknownWord,
    /// It has more or fewer words than an event of its name has.
    WrongCount,
    /// The word at this place, of which the first is 0, is no number.
    BadNumber(u64),
    /// The number at this place is out of its range.
    Range(u64),
    /// It has more than 65,536 bytes.
    LineTooLong,
    /// The input ended before the line that describes the cluster.
    NoCluster,
    /// The line that describes the cluster is no JSON.
    NotJson,
    /// The value at this key is of another kind.
    WrongKind(ClusterKey),
    /// There is a key that has no meaning there.
    UnknownKey,
    /// This key is absent.
    MissingKey(ClusterKey),
    /// The number at this key, or the length of the list there, is out of its range.
    Count(ClusterKey),
    /// A list of quantities has another length than there are resources.
    LengthDiffers,
    /// A quantity is above 1,000,000,000,000.
    QuantityRange,
    /// The quota of the group with this number is above its limit.
    QuotaOverLimit(u32),
    /// The cluster has no machine of the number that the command names.
    NoMachine,
}

impl Status {
    /// The number with which a program ends.
    pub fn code(&self) -> u8
        ensures { result ≡ code_of self.now }
    {
        match self {
            Status::Done => 0,
            Status::Usage => 2,
            Status::BadInput { .. } => 3,
            Status::ReadFault => 4,
            Status::WriteFault => 5,
            Status::Limit { .. } => 6,
            Status::OutOfMemory => 7,
            Status::DiskFault => 8,
            Status::StaleEpoch { .. } => 9,
            Status::DamagedCheckpoint { .. } => 10,
        }
    }
}
