//! The limits of the product, as the definitions have them too.

/// The resources of a cluster.
pub const MOST_RESOURCES: usize = 8;

/// The machines of a cluster.
pub const MOST_MACHINES: usize = 256;

/// The number of a rack is below this.
pub const MOST_RACKS: u32 = 64;

/// The groups of a cluster.
pub const MOST_GROUPS: usize = 32;

/// The number of a job is below this.
pub const MOST_JOBS: u32 = 256;

/// The units of a job.
pub const MOST_UNITS: usize = 8;

/// A priority is below this.
pub const MOST_PRIORITIES: u8 = 10;

/// The greatest quantity of one resource.
pub const GREATEST_QUANTITY: u64 = 1_000_000_000_000;

/// The greatest number of grants of one unit, wanted or held in one place.
pub const GREATEST_COUNT: u64 = 100_000;

/// The greatest number given back of one unit on one machine, for one epoch and boot.
pub const GREATEST_BACK: u64 = 1_000_000_000_000;

/// The entries of a row.
pub const MOST_ENTRIES: usize = 2048;

/// The changes that a channel keeps.
pub const KEPT_CHANGES: usize = 256;

/// The Deltas of one turn of one channel.
pub const TURN_DELTAS: usize = 64;

/// The masters that run at once.
pub const MOST_MASTERS: usize = 16;

/// The records of a checkpoint.
pub const MOST_RECORDS: u64 = 65_536;

/// The bytes of the body of a frame.
pub const MOST_BODY_BYTES: usize = 262_144;

/// The frames of one connection and direction.
pub const MOST_FRAMES: usize = 4096;

/// The bytes of one input line before its newline.
pub const MOST_LINE_BYTES: usize = 65_536;

/// The bytes of the address of a node, at least 1.
pub const MOST_ADDRESS_BYTES: usize = 255;

/// The input lines.
pub const MOST_LINES: u64 = 1_000_000;

/// The packets of a replay.
pub const MOST_PACKETS: usize = 1_000_000;

/// The bytes of the packets of a replay, together.
pub const MOST_PACKET_BYTES: usize = 1_073_741_824;
