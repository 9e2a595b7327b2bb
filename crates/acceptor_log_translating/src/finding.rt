//! Reading an old journal block by block: what it leaves of each room is kept, and not its records.

ghost use Rattle.std.specs.Prelude.{◌≢◌, ◌<◌, ◌≤◌, length, IfOk, OnOk, IfErr};
ghost use Rattle.acceptor_log_translating.specs.Found.{AreWidened};
ghost use Rattle.acceptor_log_translating.specs.Noted.{IsFoundOf, AreNoRecords, IsFoundBehind, IsNoRecord, IsNoted, IsPutDown};

use crate::stepping::{Room, new_room, room_after};
use acceptor_log_form::{Header, LogError, Record};
use acceptor_log_reading::{behind_open, read_first};
use std::alloc::{AllocError, Global};

/// What was found of the rooms that records name, by their numbers, as long as an old journal may have the records.
#[derive(Drop)]
pub struct Found {
    pub rooms: Vec<Room>,
    /// The records so far are in order, and none is a summary.
    pub are_sound: bool,
}

/// What the records from a gate on leave of the rooms. One offer at a time is in memory.
pub fn find(alloc: Global, header: &Header, bytes: &[u8]) -> Result<Found, LogError>
    requires { 0 < header.now.nodes }
    ensures found { IfOk result (IsFoundOf header.now bytes.now) }
    ensures refused { IfErr result (λ e. e ≢ LogError.NoMemory → AreNoRecords bytes.now e) }
{
    let mut found = Found {
        rooms: Vec::new(alloc),
        are_sound: true,
    };
    let mut rest = bytes;
    while let Some(behind) = behind_open(rest) {
        rest = note_first(alloc, header, bytes, behind, &mut found)?;
    }
    if rest.is_empty() {
        return Err(LogError::BadRecord);
    }
    Ok(found)
}

/// Notes the record that stands behind an open gate, and gives what stands behind it.
fn note_first<'a>(
    alloc: Global,
    header: &Header,
    bytes: &[u8],
    behind: &'a [u8],
    found: &mut Found,
) -> Result<&'a [u8], LogError>
    requires nodes { 0 < header.now.nodes }
    requires within { length behind.now < length bytes.now }
    ensures noted { IfOk result (λ after. IsFoundBehind header.now bytes.now behind.now found.old found.new after.now) }
    ensures shorter { IfOk result (λ after. length after.now ≤ length behind.now) }
    ensures refused { IfErr result (λ e. e ≢ LogError.NoMemory → IsNoRecord behind.now e) }
{
    let (entry, after) = read_first(alloc, behind)?;
    let place = (bytes.len() - behind.len() - 1, bytes.len() - after.len());
    match note(header, found, &entry, place) {
        Ok(()) => Ok(after),
        Err(_) => Err(LogError::NoMemory),
    }
}

/// Notes the record that stands there.
fn note(
    header: &Header,
    found: &mut Found,
    entry: &Record,
    place: (usize, usize),
) -> Result<(), AllocError>
    requires { 0 < header.now.nodes }
    ensures { OnOk result (IsNoted header.now entry.now place found.old found.new) }
{
    if !found.are_sound {
        return Ok(());
    }
    let goes = put_down(header, &mut found.rooms, entry, place)?;
    found.are_sound = goes;
    Ok(())
}

/// Notes it where an old journal may have it, and says whether that is so.
fn put_down(
    header: &Header,
    rooms: &mut Vec<Room>,
    entry: &Record,
    place: (usize, usize),
) -> Result<bool, AllocError>
    requires { 0 < header.now.nodes }
    ensures { IfOk result (IsPutDown header.now entry.now place rooms.old.items rooms.new.items) }
{
    let number = entry.room();
    widen(rooms, number)?;
    let room = usize::from(number);
    let Some(next) = room_after(header, rooms[room], entry, place) else {
        return Ok(false);
    };
    rooms[room] = next;
    Ok(true)
}

/// Sees to it that there is a room of this number.
fn widen(rooms: &mut Vec<Room>, number: u16) -> Result<(), AllocError>
    ensures { OnOk result (AreWidened number rooms.old.items rooms.new.items) }
{
    let room = usize::from(number);
    while rooms.len() <= room {
        rooms.push(new_room())?;
    }
    Ok(())
}
