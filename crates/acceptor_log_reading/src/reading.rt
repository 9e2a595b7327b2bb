//! Reading journals.

ghost use Rattle.std.specs.Prelude.{◌≡◌, ◌≢◌, ◌≤◌, ◌+◌, ◌↔◌, ℕ, List, [], ◌∷◌, ◌++◌, None, length, take, drop};
ghost use Rattle.std.specs.Prelude.{IsTrue, IsFalse, IfSome, OnSome, IfNone, IfOk, OnOk, IfErr};
ghost use Rattle.acceptor_log_form.specs.Text.{header_text, header_size, body_text, block_text, blocks, Fits, FitsWidths, StandsBehind, StandsFor};
ghost use Rattle.acceptor_log_form.specs.Reading.{record_of, first_record, records_behind};
ghost use Rattle.acceptor_log_form.specs.Fault.{IsInForm, IsMemoryOr, IsNotInForm, HasFault};

use acceptor_log_form::{HEADER_SIZE, Header, LogError, Record};
use lang_base::Row;
use std::alloc::Global;

/// What a journal's bytes stand for, and where its closed gate stands.
#[derive(Drop)]
pub struct Listed {
    pub records: Vec<Record>,
    pub gate: usize,
}

/// The records of the journal with this header, and where its closed gate stands. What is refused has the fault that is
/// told: the first one in the order of the bytes.
pub fn read(alloc: Global, header: &Header, bytes: &[u8]) -> Result<Listed, LogError>
    ensures ok { IfOk result (λ found. StandsFor header.now found.records.items bytes.now) }
    ensures gate { IfOk result (λ found. found.gate ≡ header_size + length (blocks found.records.items)) }
    ensures refused { IfErr result (λ e. e ≢ LogError.NoMemory → HasFault header.now bytes.now e) }
{
    let behind = behind_header(header, bytes)?;
    let mut found = read_records(alloc, behind)?;
    found.gate += HEADER_SIZE;
    Ok(found)
}

/// What stands behind the header.
fn behind_header<'a>(header: &Header, bytes: &'a [u8]) -> Result<&'a [u8], LogError>
    ensures form { OnOk result (IsInForm bytes.now) }
    ensures header { OnOk result (take header_size bytes.now ≡ header_text header.now) }
    ensures behind { IfOk result (λ behind. behind.now ≡ drop header_size bytes.now) }
    ensures refused { IfErr result (λ e. (e ≢ LogError.BadRecord) × HasFault header.now bytes.now e) }
{
    if !is_in_form(bytes) {
        return Err(LogError::NotAJournal);
    }
    let Some(behind) = behind_text(header, bytes) else {
        return Err(LogError::OtherSource);
    };
    Ok(behind)
}

/// Whether the bytes begin with those of a journal, and have a header and a gate.
fn is_in_form(bytes: &[u8]) -> bool
    ensures form { IsTrue result → IsInForm bytes.now }
    ensures none { IsFalse result → IsNotInForm bytes.now }
{
    41 <= bytes.len() && begins_with(bytes, b'2')
}

/// Whether the bytes begin with `CFJ` and this one.
pub fn begins_with(bytes: &[u8], form: u8) -> bool
    ensures { IsTrue result ↔ (take 4 bytes.now ≡ 0x43 ∷ 0x46 ∷ 0x4a ∷ form ∷ []) }
{
    match bytes {
        [a, b, c, d, _rest @ ..] => *a == b'C' && *b == b'F' && *c == b'J' && *d == form,
        _ => false,
    }
}

/// What stands behind the header, where the bytes begin with it.
fn behind_text<'a>(header: &Header, bytes: &'a [u8]) -> Option<&'a [u8]>
    requires { 41 ≤ length bytes.now }
    ensures header { OnSome result (take header_size bytes.now ≡ header_text header.now) }
    ensures behind { IfSome result (λ behind. behind.now ≡ drop header_size bytes.now) }
    ensures other { IfNone result (take header_size bytes.now ≢ header_text header.now) }
{
    let (head, behind) = bytes.split_at(HEADER_SIZE);
    if is_header(header, head) {
        Some(behind)
    } else {
        None
    }
}

/// Whether the bytes are the header's, all of them.
fn is_header(header: &Header, bytes: &[u8]) -> bool
    ensures { IsTrue result ↔ (bytes.now ≡ header_text header.now) }
{
    match bytes {
        [
            b'C',
            b'F',
            b'J',
            b'2',
            nodes,
            promise,
            accept,
            node,
            digest @ ..,
        ] => {
            *nodes == header.nodes
                && *promise == header.promise
                && *accept == header.accept
                && *node == header.node
                && is_digest(&header.digest, digest)
        }
        _ => false,
    }
}

pub fn is_digest(digest: &[u8; 32], bytes: &[u8]) -> bool
    ensures { IsTrue result ↔ (bytes.now ≡ digest.now) }
{
    bytes == digest.as_slice()
}

/// The records from a gate on.
pub fn read_records(alloc: Global, bytes: &[u8]) -> Result<Listed, LogError>
    ensures ok { IfOk result (λ found. StandsBehind found.records.items bytes.now) }
    ensures gate { IfOk result (λ found. found.gate ≡ length (blocks found.records.items)) }
    ensures refused { IfErr result (IsMemoryOr LogError.BadRecord (records_behind 0 bytes.now ≡ None)) }
{
    let mut records = Vec::new(alloc);
    let mut rest = bytes;
    while let Some(behind) = behind_open(rest) {
        let (entry, after) = read_first(alloc, behind)?;
        records.push(entry)?;
        rest = after;
    }
    if rest.is_empty() {
        return Err(LogError::BadRecord);
    }
    Ok(Listed {
        records,
        gate: bytes.len() - rest.len(),
    })
}

/// The bytes behind an open gate, where they begin with one.
pub fn behind_open(bytes: &[u8]) -> Option<&[u8]>
    ensures opened { IfSome result (λ behind. bytes.now ≡ 1 ∷ behind.now) }
    ensures closed { IfNone result ((behind : List ℕ) → bytes.now ≢ 1 ∷ behind) }
{
    match bytes {
        [1, behind @ ..] => Some(behind),
        _ => None,
    }
}

/// The record of the block that the bytes begin with, and what stands behind it. A block that is cut, or whose body is no record, is
/// refused.
pub fn read_first(alloc: Global, bytes: &[u8]) -> Result<(Record, &[u8]), LogError>
    ensures text { IfOk result (λ found. bytes.now ≡ block_text found.0 ++ found.1.now) }
    ensures fits { IfOk result (λ found. Fits found.0) }
    ensures refused { IfErr result (IsMemoryOr LogError.BadRecord (first_record bytes.now ≡ None)) }
{
    let [a, b, c, d, rest @ ..] = bytes else {
        return Err(LogError::BadRecord);
    };
    let size = u32::from_be_bytes([*a, *b, *c, *d]) as usize;
    if rest.len() < size {
        return Err(LogError::BadRecord);
    }
    let (body, after) = rest.split_at(size);
    let entry = read_body(alloc, body)?;
    Ok((entry, after))
}

/// The record that a body is, all of it.
fn read_body(alloc: Global, body: &[u8]) -> Result<Record, LogError>
    ensures text { IfOk result (λ entry. body.now ≡ body_text entry) }
    ensures widths { IfOk result FitsWidths }
    ensures refused { IfErr result (IsMemoryOr LogError.BadRecord (record_of body.now ≡ None)) }
{
    let [code, high, low, rest @ ..] = body else {
        return Err(LogError::BadRecord);
    };
    let room = u16::from_be_bytes([*high, *low]);
    match (*code, rest) {
        (1, offer) => read_offer(alloc, room, offer),
        (2, [a, b]) => Ok(Record::Started(room, u16::from_be_bytes([*a, *b]))),
        (3, [a, b, value]) => Ok(Record::Proposed(room, u16::from_be_bytes([*a, *b]), *value)),
        (4, [a, b]) => Ok(Record::Promised(room, u16::from_be_bytes([*a, *b]))),
        (5, [a, b, value]) => Ok(Record::Accepted(room, u16::from_be_bytes([*a, *b]), *value)),
        (6, [a, b, c, d, e, f, value]) => Ok(Record::Summary(
            room,
            u16::from_be_bytes([*a, *b]),
            u16::from_be_bytes([*c, *d]),
            (u16::from_be_bytes([*e, *f]), *value),
        )),
        _ => Err(LogError::BadRecord),
    }
}

fn read_offer(alloc: Global, room: u16, offer: &[u8]) -> Result<Record, LogError>
    ensures offered { IfOk result (λ entry. entry ≡ Record.Offered room offer.now) }
    ensures refused { IfErr result (λ e. e ≡ LogError.NoMemory) }
{
    let offer = Vec::from_slice(alloc, offer)?;
    Ok(Record::Offered(room, Row::from_vec(offer)))
}
