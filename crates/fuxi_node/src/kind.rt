use schedule_unit::{AppNo, MachineNo};

/// Which party of a cluster a node runs.
#[derive(Clone, Copy, Drop, PartialEq, Eq)]
pub enum NodeKind {
    /// The master of an epoch, which is at least 1.
    Master { epoch: u64 },
    /// The agent of a machine, whose number is at most 255, in a boot of at least 1.
    Agent { machine: MachineNo, boot: u64 },
    /// The application of a job, whose number is at most 255, with at most 8 units, in a boot of at least 1.
    App { app: AppNo, boot: u64, units: u8 },
}
