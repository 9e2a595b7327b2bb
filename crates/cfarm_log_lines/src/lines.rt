ghost use Rattle.std.specs.Prelude.{◌≡◌, ◌++◌, codes, IfOk};
ghost use Rattle.std.specs.String.{string_bytes};
ghost use Rattle.cfarm_log_lines.specs.Lines.{end_line, head_line, of_offer, of_owner, of_room, of_sizes, record_line};

use acceptor_log_form::{Header, Record};
use sha2::{Digest, Sha256};
use std::alloc::{AllocError, Global};

/// How many nodes there are, and the sizes of both quorums.
fn sizes_of(alloc: Global, header: &Header) -> Result<String, AllocError>
    ensures { IfOk result (λ text. string_bytes text ≡ of_sizes header.now) }
{
    let (nodes, promise, accept) = (header.nodes, header.promise, header.accept);
    format!(in alloc; " nodes {nodes} promise {promise} accept {accept}")
}

/// The node, and the digest of the source.
fn owner_of(alloc: Global, header: &Header) -> Result<String, AllocError>
    ensures { IfOk result (λ text. string_bytes text ≡ of_owner header.now) }
{
    let node = header.node;
    let source = hex::encode(alloc, header.digest.as_slice())?;
    format!(in alloc; " node {node} source {source}\n")
}

/// The first line: whose journal it is, of this version.
pub fn head_line(alloc: Global, version: u8, header: &Header) -> Result<String, AllocError>
    ensures { IfOk result (λ text. string_bytes text ≡ head_line version header.now) }
{
    let sizes = sizes_of(alloc, header)?;
    let owner = owner_of(alloc, header)?;
    format!(in alloc; "journal {version}{sizes}{owner}")
}

/// The line of a record.
pub fn record_line(alloc: Global, entry: &Record) -> Result<String, AllocError>
    ensures { IfOk result (λ text. string_bytes text ≡ record_line entry.now) }
{
    match entry {
        Record::Offered(room, offer) => offered_line(alloc, *room, offer.as_slice()),
        Record::Started(room, ballot) => {
            format!(in alloc; "started room {room} ballot {ballot}\n")
        }
        Record::Proposed(room, ballot, value) => {
            format!(in alloc; "proposed room {room} ballot {ballot} value {value}\n")
        }
        Record::Promised(room, ballot) => {
            format!(in alloc; "promised room {room} ballot {ballot}\n")
        }
        Record::Accepted(room, ballot, value) => {
            format!(in alloc; "accepted room {room} ballot {ballot} value {value}\n")
        }
        Record::Summary(room, started, promised, vote) => {
            let (accepted, value) = *vote;
            format!(in alloc;
                "summary room {room} started {started} promised {promised} accepted {accepted} value {value}\n"
            )
        }
    }
}

/// The line of an offer: its name is the SHA-256 of its bytes.
fn offered_line(alloc: Global, room: u16, offer: &[u8]) -> Result<String, AllocError>
    ensures { IfOk result (λ text. string_bytes text ≡ codes "offered" ++ of_room room (of_offer offer.now)) }
{
    let bytes = offer.len();
    let digest = Sha256::digest(offer);
    let name = hex::encode(alloc, digest.as_slice())?;
    format!(in alloc; "offered room {room} bytes {bytes} name {name}\n")
}

/// The last line: how many records there are, and how many bytes to the closed gate and with it.
pub fn end_line(alloc: Global, records: usize, size: usize) -> Result<String, AllocError>
    ensures { IfOk result (λ text. string_bytes text ≡ end_line records size) }
{
    format!(in alloc; "end {records} records {size} bytes\n")
}
