//! Reading old journals.

ghost use Rattle.std.specs.Prelude.{◌≡◌, ◌≢◌, ◌↔◌, ℕ, List, length, take, drop, true, false};
ghost use Rattle.std.specs.Prelude.{IsTrue, IsFalse, IfSome, OnSome, IfNone, IfOk, OnOk, IfErr};
ghost use Rattle.acceptor_log_old.specs.OldText.{first_form, second_form, old_header_text, old_header_size, OldStandsFor, is_plain, are_plain};
ghost use Rattle.acceptor_log_old.specs.OldFault.{IsInOldForm, IsInNoOldForm, HasOldFault};

use crate::header::{belongs_to_first, has_first_form, old_size};
use acceptor_log_form::{Header, LogError, Record};
use acceptor_log_reading::{Listed, begins_with, is_digest, read_records};
use std::alloc::Global;

/// The records of the old journal with this header. What is refused has the fault that is told: the first one in the order
/// of the bytes.
pub fn read_old(alloc: Global, header: &Header, bytes: &[u8]) -> Result<Vec<Record>, LogError>
    ensures ok { IfOk result (λ records. OldStandsFor header.now records.items bytes.now) }
    ensures refused { IfErr result (λ e. e ≢ LogError.NoMemory → HasOldFault header.now bytes.now e) }
{
    let behind = behind_header(header, bytes)?;
    let found = read_records(alloc, behind)?;
    let Listed { records, gate: _ } = found;
    if !have_no_summary(&records) {
        return Err(LogError::BadRecord);
    }
    Ok(records)
}

/// Whether none of the records is a summary.
fn have_no_summary(records: &[Record]) -> bool
    ensures { result ≡ are_plain records.now }
{
    for entry in records {
        if !is_no_summary(entry) {
            return false;
        }
    }
    true
}

fn is_no_summary(entry: &Record) -> bool
    ensures { result ≡ is_plain entry.now }
{
    match entry {
        Record::Offered(_, _) => true,
        Record::Started(_, _) => true,
        Record::Proposed(_, _, _) => true,
        Record::Promised(_, _) => true,
        Record::Accepted(_, _, _) => true,
        Record::Summary(_, _, _, _) => false,
    }
}

/// What stands behind the header. The first bytes tell the form, whatever the header's own is.
pub fn behind_header<'a>(header: &Header, bytes: &'a [u8]) -> Result<&'a [u8], LogError>
    ensures form { OnOk result (IsInOldForm bytes.now) }
    ensures header { OnOk result (take (old_header_size header.now) bytes.now ≡ old_header_text header.now) }
    ensures behind { IfOk result (λ behind. behind.now ≡ drop (old_header_size header.now) bytes.now) }
    ensures refused { IfErr result (λ e. (e ≢ LogError.BadRecord) × HasOldFault header.now bytes.now e) }
{
    if !is_in_form(bytes) {
        return Err(LogError::NotAJournal);
    }
    let Some(behind) = behind_text(header, bytes) else {
        return Err(LogError::OtherSource);
    };
    Ok(behind)
}

/// Whether the bytes are of one of the two forms, and have a gate.
fn is_in_form(bytes: &[u8]) -> bool
    ensures form { IsTrue result → IsInOldForm bytes.now }
    ensures none { IsFalse result → IsInNoOldForm bytes.now }
{
    if begins_with(bytes, b'1') {
        39 <= bytes.len()
    } else if begins_with(bytes, b'F') {
        41 <= bytes.len() && !belongs_to_first(bytes[4], bytes[5], bytes[6])
    } else {
        false
    }
}

/// What stands behind the header, where the bytes begin with it.
fn behind_text<'a>(header: &Header, bytes: &'a [u8]) -> Option<&'a [u8]>
    ensures header { OnSome result (take (old_header_size header.now) bytes.now ≡ old_header_text header.now) }
    ensures behind { IfSome result (λ behind. behind.now ≡ drop (old_header_size header.now) bytes.now) }
    ensures other { IfNone result (take (old_header_size header.now) bytes.now ≢ old_header_text header.now) }
{
    let size = old_size(header);
    if bytes.len() < size {
        return None;
    }
    let (head, behind) = bytes.split_at(size);
    if is_header(header, head) {
        Some(behind)
    } else {
        None
    }
}

/// Whether the bytes are the header's, all of them.
#[tactic(auto, unfolding(crate::specs::OldText::old_header_text))]
fn is_header(header: &Header, bytes: &[u8]) -> bool
    ensures { IsTrue result ↔ (bytes.now ≡ old_header_text header.now) }
{
    if has_first_form(header) {
        is_first_form(header, bytes)
    } else {
        is_second_form(header, bytes)
    }
}

fn is_first_form(header: &Header, bytes: &[u8]) -> bool
    ensures { IsTrue result ↔ (bytes.now ≡ first_form header.now) }
{
    match bytes {
        [b'C', b'F', b'J', b'1', nodes, node, digest @ ..] => {
            *nodes == header.nodes && *node == header.node && is_digest(&header.digest, digest)
        }
        _ => false,
    }
}

fn is_second_form(header: &Header, bytes: &[u8]) -> bool
    ensures { IsTrue result ↔ (bytes.now ≡ second_form header.now) }
{
    match bytes {
        [
            b'C',
            b'F',
            b'J',
            b'F',
            nodes,
            promise,
            accept,
            node,
            digest @ ..,
        ] => {
            *nodes == header.nodes
                && *promise == header.promise
                && *accept == header.accept
                && *node == header.node
                && is_digest(&header.digest, digest)
        }
        _ => false,
    }
}
