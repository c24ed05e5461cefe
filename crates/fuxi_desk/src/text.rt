//! The text of a desk: its journal, and its master then.

ghost use Rattle.std.specs.Prelude.{◌≡◌, ◌++◌, ◌∷◌, [], true, is_some, map, decimal, OnOk};
ghost use Rattle.std.specs.List.{flat_map};
ghost use Rattle.spec_roles.specs.MasterRoles.{MasterRole};
ghost use Rattle.fuxi_master.specs.Cores.{StandsFor};
ghost use Rattle.peer_channel.specs.Parcels.{kind_of};
ghost use Rattle.schedule_text.specs.Printing.{as_kind};
ghost use Rattle.schedule_text.specs.Writing.{blanked, spaced};
ghost use Rattle.master_desk.specs.Desks.{sending_of};
ghost use Rattle.master_desk.specs.Books.{HasRun, entry_line};
ghost use Rattle.fuxi_desk.specs.DeskTexts.{bad_words, desk_text, found_words, line_text, sent_line, took_line, words_in};

use fuxi_terms::OutOfMemory;
use master_desk::{BadCall, Book, Entry, Head, Heads, Words};
use party_ledgers::{Heard, Kind};
use party_text::write_master;
use schedule_text::{Kind as PrintedKind, Output, write_output};
use schedule_unit::write_number;
use std::alloc::Global;

// What a packet of a turn is. None is the end of a connection.
fn printed_kind(kind: Kind) -> PrintedKind
    ensures { as_kind result ≡ kind_of kind }
{
    match kind {
        Kind::Ack | Kind::End => PrintedKind::Ack,
        Kind::Delta => PrintedKind::Delta,
        Kind::Full => PrintedKind::Full,
    }
}

// The line of a packet of a turn: that of a schedule without the packet's number, for which there stands one digit.
fn push_sent(alloc: Global, head: &Head, out: &mut Vec<u8>) -> Result<(), OutOfMemory>
    ensures { OnOk result (out.new.items ≡ out.old.items ++ sent_line (sending_of head.now)) }
{
    let line = Output::Sent {
        number: 0,
        from: head.from,
        to: head.to,
        kind: printed_kind(head.kind),
        inc: head.place.inc,
        seq: head.place.seq,
        bytes: head.bytes,
    };
    let mut text = Vec::new(alloc);
    write_output(&line, &mut text)?;
    let (_, behind) = text.as_slice().split_at(6);
    out.extend_from_slice(b"sent")?;
    Ok(out.extend_from_slice(behind)?)
}

#[tactic(auto, using(crate::proofs::DeskTextsLemmas::one_more))]
fn push_heads(alloc: Global, heads: &Heads, out: &mut Vec<u8>) -> Result<(), OutOfMemory>
    ensures { OnOk result (out.new.items ≡ out.old.items ++ flat_map sent_line (map sending_of heads.now)) }
{
    for index in 0..heads.len() {
        match push_sent(alloc, &heads.at(index), out) {
            Ok(()) => {}
            Err(OutOfMemory) => return Err(OutOfMemory),
        }
    }
    Ok(())
}

// As what a packet was heard, behind the number of its call: the line of a schedule without its first word.
fn push_heard(alloc: Global, call: u32, heard: &Heard, out: &mut Vec<u8>) -> Result<(), OutOfMemory>
    ensures { OnOk result (out.new.items ≡ out.old.items ++ (blanked (decimal call ∷ words_in (Words.Took heard.now)) ++ 10 ∷ [])) }
{
    let line = Output::Heard(u64::from(call), heard.fresh, &heard.what);
    let mut text = Vec::new(alloc);
    write_output(&line, &mut text)?;
    let (_, behind) = text.as_slice().split_at(5);
    Ok(out.extend_from_slice(behind)?)
}

fn push_found(found: Option<u32>, out: &mut Vec<u8>) -> Result<(), OutOfMemory>
    ensures { OnOk result (out.new.items ≡ out.old.items ++ blanked (found_words found)) }
{
    match found {
        None => Ok(()),
        Some(number) => {
            out.push(b' ')?;
            write_number(u64::from(number), out)
        }
    }
}

// The name of what is wrong with a call.
fn push_why(why: &BadCall, out: &mut Vec<u8>) -> Result<(), OutOfMemory>
    ensures { OnOk result (out.new.items ≡ out.old.items ++ spaced (bad_words why.now)) }
{
    match why {
        BadCall::Frame(fault) => {
            out.extend_from_slice(fault.name().as_bytes())?;
            push_found(fault.found(), out)
        }
        BadCall::Trailing => Ok(out.extend_from_slice(b"Trailing")?),
        BadCall::End => Ok(out.extend_from_slice(b"End")?),
    }
}

// Why a call is bad, behind its number.
fn push_bad(call: u32, why: &BadCall, out: &mut Vec<u8>) -> Result<(), OutOfMemory>
    ensures { OnOk result (out.new.items ≡ out.old.items ++ (blanked (decimal call ∷ words_in (Words.Bad why.now)) ++ 10 ∷ [])) }
{
    out.push(b' ')?;
    write_number(u64::from(call), out)?;
    out.extend_from_slice(b" bad ")?;
    push_why(why, out)?;
    Ok(out.push(b'\n')?)
}

fn push_took(
    alloc: Global,
    session: u32,
    call: u32,
    words: &Words,
    out: &mut Vec<u8>,
) -> Result<(), OutOfMemory>
    ensures { OnOk result (out.new.items ≡ out.old.items ++ took_line session call words.now) }
{
    out.extend_from_slice(b"took ")?;
    write_number(u64::from(session), out)?;
    match words {
        Words::Took(heard) => push_heard(alloc, call, heard, out),
        Words::Bad(why) => push_bad(call, why, out),
    }
}

// A call of the journal, and the turn to its sender.
fn push_entry(alloc: Global, entry: &Entry, out: &mut Vec<u8>) -> Result<(), OutOfMemory>
    ensures { OnOk result (out.new.items ≡ out.old.items ++ line_text (entry_line entry.now)) }
{
    match push_took(alloc, entry.session, entry.call, &entry.words, out) {
        Ok(()) => {}
        Err(OutOfMemory) => return Err(OutOfMemory),
    }
    push_heads(alloc, &entry.heads, out)
}

#[tactic(auto, using(crate::proofs::DeskTextsLemmas::one_more))]
fn push_journal(alloc: Global, book: &Book, out: &mut Vec<u8>) -> Result<(), OutOfMemory>
    ensures { OnOk result (out.new.items ≡ out.old.items ++ flat_map line_text (map entry_line book.now.journal)) }
{
    for index in 0..book.len() {
        match push_entry(alloc, book.at(index), out) {
            Ok(()) => {}
            Err(OutOfMemory) => return Err(OutOfMemory),
        }
    }
    Ok(())
}

/// Appends the journal of a book whose master is there, in its order, and the lines of that master. A refusal may leave some of them.
pub fn write_desk(alloc: Global, book: &Book, out: &mut Vec<u8>) -> Result<(), OutOfMemory>
    requires { is_some book.now.master ≡ true }
    ensures { OnOk result ((r : MasterRole) → StandsFor book.now.opening.core r → (h : HasRun r book.now) → out.new.items ≡ out.old.items ++ desk_text h.desk) }
{
    match push_journal(alloc, book, out) {
        Ok(()) => {}
        Err(OutOfMemory) => return Err(OutOfMemory),
    }
    write_master(book.master(), out)
}
