//! Writing headers, records and whole journals.

ghost use Rattle.std.specs.Prelude.{◌≡◌, ◌∷◌, ◌++◌, length, All, IfOk, OnOk};
ghost use Rattle.std.specs.Int.{w16, to_be_bytes};
ghost use Rattle.acceptor_log_form.specs.Text.{ballot_text, block_text, body_text, header_size, header_text, journal_text, summary_text, vote_text, HasLength};

use crate::header::Header;
use crate::record::Record;
use lang_base::NoMemory;
use std::alloc::Global;

/// The header's bytes, of which there are 40.
pub fn header_bytes(alloc: Global, header: &Header) -> Result<Vec<u8>, NoMemory>
    ensures text { IfOk result (λ bytes. bytes.items ≡ header_text header.now) }
    ensures len { IfOk result (λ bytes. length bytes.items ≡ header_size) }
{
    let (nodes, promise, accept) = (header.nodes, header.promise, header.accept);
    let mut bytes = Vec::from_slice(alloc, b"CFJ2")?;
    bytes.extend_from_slice(&[nodes, promise, accept, header.node])?;
    bytes.extend_from_slice(&header.digest)?;
    Ok(bytes)
}

/// A record as it stands behind its gate: the length of its body, and its body.
pub fn record_bytes(alloc: Global, entry: &Record) -> Result<Vec<u8>, NoMemory>
    requires { HasLength entry.now }
    ensures { IfOk result (λ bytes. bytes.items ≡ block_text entry.now) }
{
    let mut bytes = Vec::new(alloc);
    write_record(entry, &mut bytes)?;
    Ok(bytes)
}

/// Writes a record as it stands behind its gate.
pub fn write_record(entry: &Record, out: &mut Vec<u8>) -> Result<(), NoMemory>
    requires { HasLength entry.now }
    ensures { OnOk result (out.new.items ≡ out.old.items ++ block_text entry.now) }
{
    let len = entry.body_len() as u32;
    out.extend_from_slice(&len.to_be_bytes())?;
    write_body(entry, out)
}

fn write_body(entry: &Record, out: &mut Vec<u8>) -> Result<(), NoMemory>
    ensures { OnOk result (out.new.items ≡ out.old.items ++ body_text entry.now) }
{
    match entry {
        Record::Offered(room, offer) => {
            write_head(1, *room, out)?;
            out.extend_from_slice(offer.as_slice())?;
            Ok(())
        }
        Record::Started(room, ballot) => write_ballot(2, *room, *ballot, out),
        Record::Proposed(room, ballot, value) => write_vote(3, *room, *ballot, *value, out),
        Record::Promised(room, ballot) => write_ballot(4, *room, *ballot, out),
        Record::Accepted(room, ballot, value) => write_vote(5, *room, *ballot, *value, out),
        Record::Summary(room, started, promised, accepted) => {
            write_summary(*room, *started, *promised, *accepted, out)
        }
    }
}

fn write_summary(
    room: u16,
    started: u16,
    promised: u16,
    accepted: (u16, u8),
    out: &mut Vec<u8>,
) -> Result<(), NoMemory>
    ensures { OnOk result (out.new.items ≡ out.old.items ++ summary_text room started promised accepted) }
{
    write_ballot(6, room, started, out)?;
    write_number(promised, out)?;
    write_number(accepted.0, out)?;
    out.push(accepted.1)?;
    Ok(())
}

fn write_head(code: u8, room: u16, out: &mut Vec<u8>) -> Result<(), NoMemory>
    ensures { OnOk result (out.new.items ≡ out.old.items ++ (code ∷ to_be_bytes w16 room)) }
{
    out.push(code)?;
    write_number(room, out)
}

fn write_ballot(code: u8, room: u16, ballot: u16, out: &mut Vec<u8>) -> Result<(), NoMemory>
    ensures { OnOk result (out.new.items ≡ out.old.items ++ ballot_text code room ballot) }
{
    write_head(code, room, out)?;
    write_number(ballot, out)
}

fn write_vote(
    code: u8,
    room: u16,
    ballot: u16,
    value: u8,
    out: &mut Vec<u8>,
) -> Result<(), NoMemory>
    ensures { OnOk result (out.new.items ≡ out.old.items ++ vote_text code room ballot value) }
{
    write_ballot(code, room, ballot, out)?;
    out.push(value)?;
    Ok(())
}

fn write_number(number: u16, out: &mut Vec<u8>) -> Result<(), NoMemory>
    ensures { OnOk result (out.new.items ≡ out.old.items ++ to_be_bytes w16 number) }
{
    out.extend_from_slice(&number.to_be_bytes())?;
    Ok(())
}

/// The whole text of the journal with this header and these records.
pub fn journal_bytes(
    alloc: Global,
    header: &Header,
    records: &[Record],
) -> Result<Vec<u8>, NoMemory>
    requires { All HasLength records.now }
    ensures { IfOk result (λ bytes. bytes.items ≡ journal_text header.now records.now) }
{
    let mut bytes = header_bytes(alloc, header)?;
    for entry in records {
        bytes.push(1)?;
        write_record(entry, &mut bytes)?;
    }
    bytes.push(0)?;
    Ok(bytes)
}
