ghost use Rattle.std.specs.Prelude.{◌≡◌, ◌≢◌, ℕ, ◌+◌, ◌<◌, ◌≤◌, ◌⊎◌, ◌↔◌, List, [], ◌∷◌, ◌++◌, length, IfOk, IfErr, OnOk, OnErr, IsTrue, Option, Some, None, true, false, vec_capacity};
ghost use Rattle.std.specs.Io.KnownBytes.{prepend_known};
ghost use Rattle.fuxi_io.specs.Causes.{Rose};
ghost use Rattle.fuxi_io.specs.Lines.{GivesKnown, BreaksOff, FirstTooLongKnown, MoreKnown};
ghost use Rattle.fuxi_io.specs.Pieces.{NoNewline};
ghost use Rattle.fuxi_io.specs.Reading.{line_of, number_after, rest_of, stop_of, read_ahead};
ghost use Rattle.fuxi_terms.specs.Limits.{most_line_bytes, most_lines};

use crate::outside::Source;
use crate::piece::Piece;
use fuxi_terms::OutOfMemory;
use fuxi_terms::limits::{MOST_LINE_BYTES, MOST_LINES};
use std::alloc::Global;
use std::marker::Model;

/// What `next` gave.
#[derive(Clone, Copy, Debug, Drop, PartialEq, Eq)]
pub enum Got {
    /// A line; `line` has its bytes.
    Line,
    /// The input is at its end.
    End,
}

/// Why no line came.
#[derive(Clone, Copy, Debug, Drop, PartialEq, Eq)]
pub enum LineStop {
    /// The source failed.
    ReadFault,
    /// More than 65,536 bytes stand before the next newline or the end.
    LineTooLong,
    /// A line begins after 1,000,000 lines.
    TooManyLines,
}

/// Reads a source line by line. It keeps what it has read behind the line, so all calls of `next` are to
/// be given the same source. After an error it answers that error from then on and reads no more.
#[derive(Drop)]
pub struct LineReader {
    piece: Piece,
    line: Vec<u8>,
    ended: bool,
    number: u64,
    stop: Option<LineStop>,
}

impl Model for LineReader {
    ghost use Rattle.std.specs.Prelude.{◌≤◌, length, vec_capacity};
    ghost use Rattle.fuxi_terms.specs.Limits.{most_lines, most_line_bytes};
    ghost use Rattle.fuxi_io.specs.Reading.{Reading, read_ahead};

    ghost Value = { Reading };

    ghost view = { λ r. record { pending = r.piece; line = r.line.items; ended = r.ended; number = r.number; stop = r.stop } };

    ghost invariant = { λ r. (most_line_bytes ≤ vec_capacity r.line) × (r.number ≤ most_lines) × (length r.piece ≤ read_ahead) };
}

// Makes `line` the next line, of which at least one byte or newline waits in the piece. Answers whether
// a newline ended it.
fn read_line<S: Source>(
    source: &mut S,
    piece: &mut Piece,
    line: &mut Vec<u8>,
) -> Result<bool, LineStop>
    requires begun { piece.old ≢ [] }
    requires room { most_line_bytes ≤ vec_capacity line.old }
    requires ahead { length piece.old ≤ read_ahead }
    ensures room { most_line_bytes ≤ vec_capacity line.new }
    ensures ahead { length piece.new ≤ read_ahead }
    ensures gives { IfOk result (λ ended. GivesKnown Got.Line (prepend_known piece.old (S.left source.old)) (record { bytes = line.new.items; ended = ended }) (prepend_known piece.new (S.left source.new))) }
    ensures later { S.faults source.old ≤ S.faults source.new }
    ensures fault { result ≡ Err LineStop.ReadFault → Rose (S.faults source.old) (S.faults source.new) }
    ensures served { result ≢ Err LineStop.ReadFault → S.faults source.new ≡ S.faults source.old }
    ensures unread { (NoNewline piece.old → ⊥) → (source.new ≡ source.old) × (result ≢ Err LineStop.ReadFault) }
    ensures broke { result ≡ Err LineStop.ReadFault → BreaksOff (prepend_known piece.old (S.left source.old)) (S.left source.new) }
    ensures long { result ≡ Err LineStop.LineTooLong → FirstTooLongKnown (prepend_known piece.old (S.left source.old)) }
    ensures few { result ≢ Err LineStop.TooManyLines }
{
    line.clear();
    while !piece.is_empty() {
        if piece.move_line(line)? {
            return Ok(true);
        }
        piece.fill(source)?;
    }
    Ok(false)
}

impl LineReader {
    /// A reader that has read nothing. It takes all the memory that `next` needs.
    pub fn new(alloc: Global) -> Result<LineReader, OutOfMemory>
        ensures { IfOk result (λ reader. reader ≡ record { pending = []; line = []; ended = false; number = 0; stop = None }) }
    {
        let piece = Piece::new(alloc)?;
        let line = Vec::with_capacity(alloc, MOST_LINE_BYTES).map_err(|_| OutOfMemory)?;
        Ok(LineReader {
            piece,
            line,
            ended: false,
            number: 0,
            stop: None,
        })
    }

    /// The next line of the source, without its newline, or the end. It takes no memory.
    ///
    /// `ReadFault` comes only where the source's count of faults rose in this call, and after every other
    /// answer the count is as it was; what the source gave before a fault ends within the next line. The limit on lines is tested where a further byte has come, and
    /// before the length of its line. Each error is answered again by all later calls, which read nothing.
    pub fn next<S: Source>(&mut self, source: &mut S) -> Result<Got, LineStop>
        // After an error it answers the same, and nothing changes.
        ensures again { (s : LineStop) → self.old.stop ≡ Some s → (result ≡ Err s) × (self.new ≡ self.old) × (source.new ≡ source.old) }
        ensures running { OnOk result (self.old.stop ≡ None) }
        ensures stop { self.new.stop ≡ stop_of result }

        ensures gives { IfOk result (λ got. GivesKnown got (rest_of self.old (S.left source.old)) (line_of self.new) (rest_of self.new (S.left source.new))) }
        ensures number { self.new.number ≡ number_after self.old.number result }
        ensures within { result ≡ Ok Got.Line → self.old.number < most_lines }
        ensures end { result ≡ Ok Got.End → self.new.line ≡ self.old.line }

        ensures later { S.faults source.old ≤ S.faults source.new }
        ensures fault { result ≡ Err LineStop.ReadFault → (self.old.stop ≡ Some LineStop.ReadFault) ⊎ Rose (S.faults source.old) (S.faults source.new) }
        ensures served { result ≢ Err LineStop.ReadFault → S.faults source.new ≡ S.faults source.old }
        ensures unread { (NoNewline self.old.pending → ⊥) → (source.new ≡ source.old) × (result ≡ Err LineStop.ReadFault → self.old.stop ≡ Some LineStop.ReadFault) }
        ensures broke { result ≡ Err LineStop.ReadFault → (self.old.stop ≡ Some LineStop.ReadFault) ⊎ BreaksOff (rest_of self.old (S.left source.old)) (S.left source.new) }
        ensures ahead { length self.new.pending ≤ read_ahead }
        ensures long { result ≡ Err LineStop.LineTooLong → (self.old.stop ≡ Some LineStop.LineTooLong)
            ⊎ ((self.old.number < most_lines) × FirstTooLongKnown (rest_of self.old (S.left source.old))) }
        ensures many { result ≡ Err LineStop.TooManyLines → (self.old.stop ≡ Some LineStop.TooManyLines)
            ⊎ ((self.old.number ≡ most_lines) × MoreKnown (rest_of self.old (S.left source.old))) }
    {
        if let Some(stop) = self.stop {
            return Err(stop);
        }
        let answer = self.advance(source);
        if let Err(stop) = answer {
            self.stop = Some(stop);
        }
        answer
    }

    // `next` of a reader that has not stopped; it leaves the mark of the stop to its caller.
    fn advance<S: Source>(&mut self, source: &mut S) -> Result<Got, LineStop>
        ensures stop { self.new.stop ≡ self.old.stop }
        ensures gives { IfOk result (λ got. GivesKnown got (rest_of self.old (S.left source.old)) (line_of self.new) (rest_of self.new (S.left source.new))) }
        ensures number { self.new.number ≡ number_after self.old.number result }
        ensures within { result ≡ Ok Got.Line → self.old.number < most_lines }
        ensures end { result ≡ Ok Got.End → self.new.line ≡ self.old.line }
        ensures later { S.faults source.old ≤ S.faults source.new }
        ensures fault { result ≡ Err LineStop.ReadFault → Rose (S.faults source.old) (S.faults source.new) }
        ensures served { result ≢ Err LineStop.ReadFault → S.faults source.new ≡ S.faults source.old }
        ensures unread { (NoNewline self.old.pending → ⊥) → (source.new ≡ source.old) × (result ≢ Err LineStop.ReadFault) }
        ensures broke { result ≡ Err LineStop.ReadFault → BreaksOff (rest_of self.old (S.left source.old)) (S.left source.new) }
        ensures long { result ≡ Err LineStop.LineTooLong → (self.old.number < most_lines) × FirstTooLongKnown (rest_of self.old (S.left source.old)) }
        ensures many { result ≡ Err LineStop.TooManyLines → (self.old.number ≡ most_lines) × MoreKnown (rest_of self.old (S.left source.old)) }
    {
        if self.piece.is_empty() {
            self.piece.fill(source)?;
            if self.piece.is_empty() {
                return Ok(Got::End);
            }
        }
        if self.number == MOST_LINES {
            return Err(LineStop::TooManyLines);
        }
        self.ended = read_line(source, &mut self.piece, &mut self.line)?;
        self.number += 1;
        Ok(Got::Line)
    }

    /// The bytes of the line that `next` gave last, without its newline; none before the first. After an
    /// error they are of no use.
    pub fn line(&self) -> &[u8]
        ensures { result.now ≡ self.now.line }
    {
        &self.line
    }

    /// Whether a newline ended the line that `next` gave last. The last line of an input may end without one.
    pub fn ended(&self) -> bool
        ensures { result ≡ self.now.ended }
    {
        self.ended
    }

    /// Whether a whole line waits, so that the next call of `next` reads nothing.
    pub fn is_at_hand(&self) -> bool
        ensures { IsTrue result → NoNewline self.now.pending → ⊥ }
    {
        self.piece.has_newline()
    }

    /// How many lines `next` gave so far, at most 1,000,000.
    pub fn number(&self) -> u64
        ensures value { result ≡ self.now.number }
        ensures bound { result ≤ most_lines }
    {
        self.number
    }

    /// Whether `next` answered `ReadFault`; false after every other answer.
    pub fn stopped(&self) -> bool
        ensures { IsTrue result ↔ (self.now.stop ≡ Some LineStop.ReadFault) }
    {
        self.stop == Some(LineStop::ReadFault)
    }
}

/// A reader has read at most 16,384 bytes before they are needed, whatever was done with it.
pub fn is_little_ahead(lines: &LineReader)
    ensures { length lines.now.pending ≤ read_ahead }
{
    let _piece = &lines.piece;
}
