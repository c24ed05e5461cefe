//! Tests over the system's own memory, file, socket and threads: what no contract reaches; of a world that no program calls, and of an
//! application by its calls. It has no code but them, so the crates that they are of are proved once.
#![tactic(auto)]

#[cfg(test)]
mod application;
#[cfg(test)]
mod counted_events;
#[cfg(test)]
mod file_disk;
#[cfg(test)]
mod pool;
#[cfg(test)]
mod sessions;
#[cfg(test)]
mod tcp_door;
