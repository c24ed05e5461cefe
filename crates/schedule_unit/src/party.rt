//! The parties of the scheduler, and what they are numbered by.

/// The number of a job, and of the application that runs it: 0 to 255.
#[derive(Clone, Copy, Debug, PartialEq, Eq, PartialOrd, Ord)]
pub struct AppNo(pub u32);

/// The place of a unit in its job: 0 to 7.
#[derive(Clone, Copy, Debug, PartialEq, Eq, PartialOrd, Ord)]
pub struct UnitNo(pub u8);

/// The place of a machine in its cluster: 0 to 255.
#[derive(Clone, Copy, Debug, PartialEq, Eq, PartialOrd, Ord)]
pub struct MachineNo(pub u32);

/// The number of a rack: 0 to 63. A rack exists where a machine stands in it.
#[derive(Clone, Copy, Debug, PartialEq, Eq, PartialOrd, Ord)]
pub struct RackNo(pub u32);

/// The place of a group in its cluster: 0 to 31.
#[derive(Clone, Copy, Debug, PartialEq, Eq, PartialOrd, Ord)]
pub struct GroupNo(pub u32);

/// What a party does.
#[derive(Clone, Copy, Debug, PartialEq, Eq, PartialOrd, Ord)]
pub enum Role {
    /// It schedules: it grants units of the jobs on the machines.
    Master,
    /// It runs what its machine was granted.
    Agent,
    /// It asks grants for one job.
    App,
}

/// A party in one of its incarnations.
#[derive(Clone, Copy, Debug, PartialEq, Eq)]
pub struct Party {
    /// What it does.
    pub role: Role,
    /// The machine of an agent, the job of an application, 0 of a master.
    pub number: u32,
    /// The epoch of a master, the boot of an agent or application; 0 where none is known.
    pub inc: u64,
}
