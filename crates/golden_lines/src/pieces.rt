//! What a program of cases prints, piece by piece. A call with its pieces is checked in half the time of a line with a form of its own.

use crate::stop::Stop;

/// A piece of a line.
#[derive(Clone, Copy)]
pub enum Piece<'a> {
    /// As it stands.
    Text(&'a str),
    /// In decimal digits.
    Number(u64),
    /// The same, with a sign where it is below zero.
    Signed(i64),
    /// `true` or `false`.
    Truth(bool),
}

/// Prints the pieces, one behind the other.
pub fn say(rt: &HostRuntime, pieces: &[Piece]) -> Result<(), Stop> {
    for piece in pieces {
        match piece {
            Piece::Text(text) => print!(rt; "{text}")?,
            Piece::Number(number) => print!(rt; "{number}")?,
            Piece::Signed(number) => print!(rt; "{number}")?,
            Piece::Truth(truth) => print!(rt; "{truth}")?,
        }
    }
    Ok(())
}

/// The same as a line.
pub fn say_line(rt: &HostRuntime, pieces: &[Piece]) -> Result<(), Stop> {
    say(rt, pieces)?;
    Ok(println!(rt;)?)
}
