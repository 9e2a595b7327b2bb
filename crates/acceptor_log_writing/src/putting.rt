//! What is written for records that are put down at once.

ghost use Rattle.std.specs.Prelude.{◌≡◌, ◌<◌, ◌≤◌, ◌+◌, ◌++◌, length, All};
ghost use Rattle.std.specs.Prelude.{IfOk, IfErr, OnOk, IfSome, OnSome, IfNone, IsTrue, IsFalse};
ghost use Rattle.acceptor_log_form.specs.Text.{blocks, body_text, Fits, HasLength};
ghost use Rattle.acceptor_log_form.specs.Fault.{IsMemoryOr};
ghost use Rattle.acceptor_log_writing.specs.Written.{behind_gate, IsOver};

use acceptor_log_form::{LogError, Record, record_bytes, write_record};
use lang_base::NoMemory;
use std::alloc::Global;

/// A journal's file has at most so many bytes.
pub const MOST_BYTES: u64 = 4_294_967_295;

/// What is written for records behind a gate that stands there, where the file has space for it.
pub fn blocks_behind(alloc: Global, gate: u64, entries: &[Record]) -> Result<Vec<u8>, LogError>
    requires { 0 < length entries.now }
    ensures fit { OnOk result (All Fits entries.now) }
    ensures text { IfOk result (λ block. block.items ≡ behind_gate entries.now) }
    ensures space { IfOk result (λ block. gate + 1 + length block.items ≤ MOST_BYTES) }
    ensures fewer { IfOk result (λ block. length entries.now ≤ length block.items) }
    ensures size { OnOk result (gate + 1 + length (blocks entries.now) ≤ MOST_BYTES) }
    ensures refused { IfErr result (IsMemoryOr LogError.Full (IsOver gate entries.now)) }
    ensures full { IsOver gate entries.now → result ≡ Err LogError.Full }
{
    let Some((first, others)) = entries.split_first() else {
        return Ok(Vec::new(alloc));
    };
    if !has_space(gate, entries) {
        return Err(LogError::Full);
    }
    let mut block = record_bytes(alloc, first)?;
    write_blocks(others, &mut block)?;
    block.push(0)?;
    Ok(block)
}

/// Writes records as they stand one behind the other, each behind its open gate.
fn write_blocks(records: &[Record], out: &mut Vec<u8>) -> Result<(), NoMemory>
    requires { All HasLength records.now }
    ensures { OnOk result (out.new.items ≡ out.old.items ++ blocks records.now) }
{
    for entry in records {
        out.push(1)?;
        write_record(entry, out)?;
    }
    Ok(())
}

/// Whether the file has space for records that are put down behind the closed gate that stands there.
fn has_space(gate: u64, entries: &[Record]) -> bool
    ensures fit { IsTrue result → All Fits entries.now }
    ensures space { IsTrue result → gate + 1 + length (blocks entries.now) ≤ MOST_BYTES }
    ensures over { IsFalse result → IsOver gate entries.now }
{
    if gate >= MOST_BYTES {
        return false;
    }
    let mut next = gate;
    for entry in entries {
        match gate_behind(next, entry) {
            Some(behind) => next = behind,
            None => return false,
        }
    }
    true
}

/// Where the closed gate stands once a record is put down behind the one that stands there, if the file has space for it.
fn gate_behind(gate: u64, entry: &Record) -> Option<u64>
    ensures next { IfSome result (λ next. next ≡ gate + 5 + length (body_text entry.now)) }
    ensures space { IfSome result (λ next. next < MOST_BYTES) }
    ensures fits { OnSome result (Fits entry.now) }
    ensures none { IfNone result (MOST_BYTES < gate + 6 + length (body_text entry.now)) }
{
    let body = entry.body_len() as u64;
    if body > MOST_BYTES - 6 || gate > MOST_BYTES - 6 - body {
        return None;
    }
    Some(gate + 5 + body)
}
