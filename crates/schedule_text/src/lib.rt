//! The text of schedules: event lines as they are read and written, and the lines that are printed.
#![tactic(auto)]

mod asked;
mod event;
mod form;
mod head;
pub mod law;
mod make;
mod number;
mod output;
mod read;
mod refusal;
mod tail;
mod usual;
mod word;
mod write;

pub use asked::job_refusal;
pub use event::{Event, LineFault};
pub use head::{LineHead, head_of};
pub use number::{NumberPlace, begins_with, numbers_at};
pub use output::{
    Kind, Output, push_heard, push_numbered, push_place, push_sent, write_frame, write_heard,
    write_output, write_sent,
};
pub use read::read_event;
pub use refusal::Refusal;
pub use word::words_of;
pub use write::{event_lines, push_blanked, push_numbers, write_event};
