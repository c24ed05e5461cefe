//! The outside of the scheduler: streams, disks and connections, the lines of an input, and the outcomes with which a
//! command ends.
#![tactic(auto)]

mod buffer;
mod disk;
mod door;
mod file_disk;
pub mod law;
mod lines;
mod memory;
mod memory_disk;
mod memory_door;
mod outside;
mod piece;
mod pieces;
mod standard;
mod status;
mod tcp_door;
mod telling;
mod usage_trace;

pub use buffer::WriteBuffer;
pub use disk::Disk;
pub use door::Door;
pub use file_disk::FileDisk;
pub use fuxi_terms::{ClusterKey, OutOfMemory};
pub use lines::{Got, LineReader, LineStop};
pub use memory::{MemSink, MemSource};
pub use memory_disk::MemDisk;
pub use memory_door::MemDoor;
pub use outside::{Failed, Sink, Source, WriteFault, write_all_of};
pub use pieces::write_pieces;
pub use standard::{StdSink, StdSource, read_again};
pub use status::{InputFault, LimitOf, Status};
pub use tcp_door::TcpDoor;
pub use telling::report;
pub use usage_trace::UsageTrace;
