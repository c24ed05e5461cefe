//! The checkpoint.

mod call;
mod calls;
mod place;
mod telling;

use calls::{Way, opened, raised};
use fuxi_io::MemDisk;
use golden_lines::Piece::Text;
use golden_lines::{Cases, Stop, head_of, number_of, numbers_of, say_line};
pub use place::Place;
use place::ROOM;
use std::alloc::Global;
use telling::tell_bytes;

// A disk with the bytes that are written in hexadecimal, and after them the numbers of the calls that are to fail.
fn disk_of(alloc: Global, rest: &str) -> Result<MemDisk, Stop> {
    let (text, fails) = head_of(rest);
    let bytes = hex::decode(alloc, text).unwrap_or(Vec::new(alloc));
    let mut disk = MemDisk::of(alloc, bytes, numbers_of(alloc, fails)?);
    disk.room(16 * ROOM)?;
    Ok(disk)
}

fn put_disk(alloc: Global, place: &mut Place, rest: &str) -> Result<(), Stop> {
    *place = Place::shut(disk_of(alloc, rest)?);
    Ok(())
}

// What a line changes of the bytes of the disk: the first so many, or one of them with another value.
fn changed(alloc: Global, bytes: &[u8], word: &str, rest: &str) -> Result<Vec<u8>, Stop> {
    let (first, second) = head_of(rest);
    let number = number_of(first).min(bytes.len() as u64) as usize;
    if word == "cut" {
        return Ok(bytes[..number].to_vec(alloc)?);
    }
    let mut changed = bytes.to_vec(alloc)?;
    if let Some(byte) = changed.get_mut(number) {
        *byte = number_of(second).min(255) as u8;
    }
    Ok(changed)
}

// Opens a disk with the bytes that are left of a file, or that are changed in it.
fn opened_bytes(rt: &HostRuntime, alloc: Global, bytes: Vec<u8>) -> Result<(), Stop> {
    let mut disk = MemDisk::of(alloc, bytes, Vec::new(alloc));
    disk.room(ROOM)?;
    opened(rt, alloc, &mut Place::shut(disk))
}

fn answer(
    rt: &HostRuntime,
    alloc: Global,
    place: &mut Place,
    (word, rest): (&str, &str),
) -> Result<(), Stop> {
    match word {
        "disk" => put_disk(alloc, place, rest),
        "open" => opened(rt, alloc, place),
        "room" => Ok(place.room(number_of(rest).min(1 << 24) as usize)?),
        "raise_to" => raised(rt, place, number_of(rest)),
        "bytes" => tell_bytes(rt, alloc, place.bytes()),
        "cut" | "byte" => opened_bytes(rt, alloc, changed(alloc, place.bytes(), word, rest)?),
        "halt" => calls::answer(rt, alloc, place, head_of(rest), Way::Halted),
        _ => calls::answer(rt, alloc, place, (word, rest), Way::Once),
    }
}

impl Cases for Place {
    fn start(alloc: Global) -> Result<Place, Stop> {
        Ok(Place::shut(disk_of(alloc, "")?))
    }

    fn answer_line(&mut self, rt: &HostRuntime, alloc: Global, line: &str) -> Result<(), Stop> {
        say_line(rt, &[Text(line)])?;
        if line.is_empty() || line.starts_with('#') {
            return Ok(());
        }
        answer(rt, alloc, self, head_of(line))
    }
}
