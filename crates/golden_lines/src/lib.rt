//! What programs of worked cases share: the table and its lines, the words of a line, numbers, bytes and texts as words, the
//! units of a job, why a program stops, and what it prints.
#![tactic(auto)]

mod asking;
mod bytes;
mod cases;
mod pieces;
mod stop;
mod texts;
mod words;

pub use asking::asks_of;
pub use bytes::bytes_of;
pub use cases::{Cases, answer_input};
pub use pieces::{Piece, say, say_line};
pub use stop::Stop;
pub use texts::{push_text, text_of};
pub use words::{head_of, number_of, numbers_of, put_numbers};
