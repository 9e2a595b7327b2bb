//! The text of the new journal that an old one is translated to.

ghost use Rattle.std.specs.Prelude.{◌≡◌, ◌≢◌, ◌<◌, ◌≤◌, ◌+◌, ◌^◌, ◌==◌, ◌&&◌, ℕ, List, Some, length, slice_get};
ghost use Rattle.std.specs.Prelude.{[], ◌∷◌, ◌++◌, IfOk, OnOk, IfErr, IfSome};
ghost use Rattle.acceptor_log_form.specs.declared.record.Record.{Record};
ghost use Rattle.acceptor_log_form.specs.Text.{HasLength, block_text};
ghost use Rattle.acceptor_log_old.specs.Migrated.{told, summary_of};
ghost use Rattle.acceptor_log_translating.specs.Translating.{IsAdded};
ghost use Rattle.acceptor_log_translating.specs.Found.{part_at, IsPlace, AreFound, CanBeWritten};
ghost use Rattle.acceptor_log_translating.specs.Texts.{IsTextOfRooms, IsTooLong, IsTextBelow, AreRoomsAdded, IsRoomAdded, IsOfferAdded};
ghost use Rattle.acceptor_log_translating.specs.Old.{IsNotMigrated, IsTextFor};

use crate::finding::{Found, find};
use crate::stepping::Room;
use acceptor_log_form::{Header, LogError, Record, header_bytes, write_record};
use acceptor_log_old::behind_header;
use acceptor_log_writing::MOST_BYTES;
use lang_base::NoMemory;
use paxos_core_world::kept::Kept;
use std::alloc::Global;

/// How many bytes the block of a summary has, with its gate.
const SUMMARY_SIZE: usize = 15;

/// The whole text of a journal, how many records it has, and where its closed gate stands.
#[derive(Drop)]
pub struct Text {
    pub bytes: Vec<u8>,
    pub count: u64,
    pub gate: u64,
}

/// The text of the new journal for an old one's bytes. It takes a few words for each room up to the last that is named, no more
/// memory than the longest offer while it reads, and then the text.
pub fn translate(alloc: Global, header: &Header, bytes: &[u8]) -> Result<Text, LogError>
    requires { 0 < header.now.nodes }
    ensures made { IfOk result (IsTextFor header.now bytes.now) }
    ensures fewer { IfOk result (λ text. text.count ≤ text.gate) }
    ensures refused { IfErr result (λ e. e ≢ LogError.NoMemory → IsNotMigrated header.now bytes.now e) }
{
    let behind = match behind_header(header, bytes) {
        Ok(behind) => behind,
        Err(refused) => return Err(refused),
    };
    let found = match find(alloc, header, behind) {
        Ok(found) => found,
        Err(refused) => return Err(refused),
    };
    let Found { rooms, are_sound } = found;
    if !are_sound {
        return Err(LogError::BadRecord);
    }
    text_of(alloc, header, behind, &rooms)
}

/// The text for what was found of the rooms.
fn text_of(alloc: Global, header: &Header, bytes: &[u8], rooms: &[Room]) -> Result<Text, LogError>
    requires { (rs : List Record) × AreFound header.now.nodes header.now.node bytes.now rs rooms.now }
    ensures made { IfOk result (IsTextOfRooms header.now bytes.now rooms.now) }
    ensures fewer { IfOk result (λ text. text.count ≤ text.gate) }
    ensures refused { IfErr result (λ e. e ≢ LogError.NoMemory → IsTooLong header.now bytes.now rooms.now e) }
{
    let _nodes = nodes_of(header);
    let text = written(alloc, header, bytes, rooms)?;
    if text.bytes.len() as u64 > MOST_BYTES {
        return Err(LogError::Full);
    }
    Ok(text)
}

/// How many nodes there are.
fn nodes_of(header: &Header) -> u8
    ensures is { result ≡ header.now.nodes }
    ensures few { result < 256 }
{
    header.nodes
}

/// The text, room by room.
fn written(alloc: Global, header: &Header, bytes: &[u8], rooms: &[Room]) -> Result<Text, NoMemory>
    requires most { length rooms.now ≤ 2 ^ 16 }
    requires each { (m : ℕ) (x : Room) → slice_get rooms.now m ≡ Some x → CanBeWritten bytes.now x }
    ensures text { IfOk result (IsTextBelow header.now bytes.now rooms.now) }
    ensures fewer { IfOk result (λ text. text.count ≤ text.gate) }
{
    let mut text = header_bytes(alloc, header)?;
    let count = write_rooms(rooms, bytes, &mut text)?;
    let gate = text.len() as u64;
    text.push(0)?;
    Ok(Text {
        bytes: text,
        count,
        gate,
    })
}

/// Writes what is put down of the rooms, and says how many records that is.
fn write_rooms(rooms: &[Room], bytes: &[u8], out: &mut Vec<u8>) -> Result<u64, NoMemory>
    requires most { length rooms.now ≤ 2 ^ 16 }
    requires each { (m : ℕ) (x : Room) → slice_get rooms.now m ≡ Some x → CanBeWritten bytes.now x }
    ensures added { IfOk result (AreRoomsAdded bytes.now rooms.now out.old.items out.new.items) }
    ensures grown { IfOk result (λ n. length out.old.items + n ≤ length out.new.items) }
{
    out.reserve(size_behind_header(rooms))?;
    let mut count = 0u64;
    for room in 0..rooms.len() {
        count += write_room(room as u16, rooms[room], bytes, out)?;
    }
    Ok(count)
}

/// At least as many bytes as are written behind the header, so that the text is not moved as it grows.
fn size_behind_header(rooms: &[Room]) -> usize {
    let mut size = 1usize;
    for room in rooms {
        let offer = room.place.1.saturating_sub(room.place.0);
        size = size.saturating_add(offer).saturating_add(SUMMARY_SIZE);
    }
    size
}

/// Writes what is put down of a room, and says how many records that is.
fn write_room(room: u16, found: Room, bytes: &[u8], out: &mut Vec<u8>) -> Result<u64, NoMemory>
    requires { CanBeWritten bytes.now found }
    ensures added { IfOk result (IsRoomAdded bytes.now room found out.old.items out.new.items) }
    ensures most { IfOk result (λ n. n ≤ 2) }
    ensures grown { IfOk result (λ n. length out.old.items + n ≤ length out.new.items) }
{
    let Room { kept, place, .. } = found;
    let offers = write_offer(part(bytes, place), out)?;
    let summaries = write_summary(room, kept, out)?;
    Ok(offers + summaries)
}

/// The bytes that stand there.
fn part(bytes: &[u8], place: (usize, usize)) -> &[u8]
    requires { IsPlace bytes.now place }
    ensures { result.now ≡ part_at bytes.now place }
{
    let (front, _) = bytes.split_at(place.1);
    let (_, there) = front.split_at(place.0);
    there
}

/// Writes an offer's block with its gate, if there is one, and says whether there is.
fn write_offer(block: &[u8], out: &mut Vec<u8>) -> Result<u64, NoMemory>
    ensures added { IfOk result (IsOfferAdded block.now out.old.items out.new.items) }
    ensures most { IfOk result (λ n. n ≤ 1) }
    ensures grown { IfOk result (λ n. length out.old.items + n ≤ length out.new.items) }
{
    if block.is_empty() {
        return Ok(0);
    }
    out.extend_from_slice(block)?;
    Ok(1)
}

/// Writes the summary of a room, and says whether there is one.
fn write_summary(room: u16, kept: Kept, out: &mut Vec<u8>) -> Result<u64, NoMemory>
    requires { IfSome kept.accepted (λ x. x.value < 256) }
    ensures added { IfOk result (IsAdded out.old.items out.new.items (summary_of room kept)) }
    ensures most { IfOk result (λ n. n ≤ 1) }
    ensures grown { IfOk result (λ n. length out.old.items + n ≤ length out.new.items) }
{
    if tells_nothing(kept) {
        return Ok(0);
    }
    let entry = Record::Summary(room, kept.started(), kept.promised(), vote_of(kept));
    let _length = entry.body_len();
    match write_behind_gate(&entry, out) {
        Ok(()) => Ok(1),
        Err(refused) => Err(refused),
    }
}

/// Writes an open gate, and a record behind it.
fn write_behind_gate(entry: &Record, out: &mut Vec<u8>) -> Result<(), NoMemory>
    requires { HasLength entry.now }
    ensures { OnOk result (out.new.items ≡ (out.old.items ++ 1 ∷ []) ++ block_text entry.now) }
{
    out.push(1)?;
    write_record(entry, out)?;
    Ok(())
}

/// Whether there is nothing that a summary would tell.
fn tells_nothing(kept: Kept) -> bool
    ensures { result ≡ (kept.started == 0 && kept.promised == 0) }
{
    kept.started() == 0 && kept.promised() == 0
}

/// The vote as a summary tells it.
fn vote_of(kept: Kept) -> (u16, u8)
    requires { IfSome kept.accepted (λ x. x.value < 256) }
    ensures { result ≡ told kept.accepted }
{
    match kept.accepted() {
        None => (0, 0),
        Some(vote) => (vote.ballot, vote.value as u8),
    }
}
