//! Printing the parts of a listing. Where the writer or memory fails a beginning of them was printed.

ghost use Rattle.std.specs.Prelude.{◌≡◌, ◌⊎◌, OnOk, OnErr, IfErr};
ghost use Rattle.std.specs.Io.KnownBytes.{Appends};
ghost use Rattle.cfarm_output.specs.Begun.{IsBegun};
ghost use Rattle.cfarm_log_lines.specs.Lines.{end_line, record_line, record_lines};
ghost use Rattle.cfarm_log.specs.Listing.{AreLinesBegun, header_line, lines_to};

use crate::error::ListingError;
use crate::version::Version;
use acceptor_log_form::{Header, Record};
use cfarm_log_lines::{end_line, head_line, record_line};
use cfarm_output::{print_all, print_whole};
use std::alloc::Global;
use std::io::Write;

/// Prints the first line.
fn print_head<W: Write>(
    alloc: Global,
    version: Version,
    header: &Header,
    out: &mut W,
) -> Result<(), ListingError>
    ensures ok { OnOk result (Appends (W.contents out.old) (W.contents out.new) (header_line version header.now)) }
    ensures begun { OnErr result (IsBegun (header_line version header.now) (W.contents out.old) (W.contents out.new)) }
    ensures err { IfErr result (λ e. (e ≡ ListingError.NoMemory) ⊎ (e ≡ ListingError.Write)) }
{
    match head_line(alloc, version.number(), header) {
        Ok(text) => match print_all(out, text.as_bytes()) {
            Ok(()) => Ok(()),
            Err(_) => Err(ListingError::Write),
        },
        Err(_) => Err(ListingError::NoMemory),
    }
}

/// Prints the line of a record.
fn print_record<W: Write>(alloc: Global, entry: &Record, out: &mut W) -> Result<(), ListingError>
    ensures ok { OnOk result (Appends (W.contents out.old) (W.contents out.new) (record_line entry.now)) }
    ensures begun { OnErr result (IsBegun (record_line entry.now) (W.contents out.old) (W.contents out.new)) }
    ensures err { IfErr result (λ e. (e ≡ ListingError.NoMemory) ⊎ (e ≡ ListingError.Write)) }
{
    match record_line(alloc, entry) {
        Ok(text) => match print_all(out, text.as_bytes()) {
            Ok(()) => Ok(()),
            Err(_) => Err(ListingError::Write),
        },
        Err(_) => Err(ListingError::NoMemory),
    }
}

/// Prints the lines of records.
fn print_records<W: Write>(
    alloc: Global,
    records: &[Record],
    out: &mut W,
) -> Result<(), ListingError>
    ensures ok { OnOk result (Appends (W.contents out.old) (W.contents out.new) (record_lines records.now)) }
    ensures begun { OnErr result (IsBegun (record_lines records.now) (W.contents out.old) (W.contents out.new)) }
    ensures err { IfErr result (λ e. (e ≡ ListingError.NoMemory) ⊎ (e ≡ ListingError.Write)) }
{
    for number in 0..records.len() {
        match print_record(alloc, &records[number], out) {
            Ok(()) => {}
            Err(fault) => return Err(fault),
        }
    }
    Ok(())
}

/// Prints the first line and those of records.
pub(crate) fn print_front<W: Write>(
    alloc: Global,
    version: Version,
    header: &Header,
    records: &[Record],
    out: &mut W,
) -> Result<(), ListingError>
    ensures ok { OnOk result
        (Appends (W.contents out.old) (W.contents out.new) (lines_to version header.now records.now)) }
    ensures begun { OnErr result
        (AreLinesBegun version header.now records.now (W.contents out.old) (W.contents out.new)) }
    ensures err { IfErr result (λ e. (e ≡ ListingError.NoMemory) ⊎ (e ≡ ListingError.Write)) }
{
    match print_head(alloc, version, header, out) {
        Ok(()) => print_records(alloc, records, out),
        Err(fault) => Err(fault),
    }
}

/// Prints the last line, and flushes all.
pub(crate) fn print_end<W: Write>(
    alloc: Global,
    records: usize,
    size: usize,
    out: &mut W,
) -> Result<(), ListingError>
    ensures ok { OnOk result (Appends (W.contents out.old) (W.contents out.new) (end_line records size)) }
    ensures begun { OnErr result (IsBegun (end_line records size) (W.contents out.old) (W.contents out.new)) }
    ensures err { IfErr result (λ e. (e ≡ ListingError.NoMemory) ⊎ (e ≡ ListingError.Write)) }
{
    match end_line(alloc, records, size) {
        Ok(text) => match print_whole(out, text.as_bytes()) {
            Ok(()) => Ok(()),
            Err(_) => Err(ListingError::Write),
        },
        Err(_) => Err(ListingError::NoMemory),
    }
}
