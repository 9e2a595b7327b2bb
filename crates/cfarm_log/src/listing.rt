//! The whole command.

ghost use Rattle.std.specs.Prelude.{◌≡◌, ◌⊎◌, OnOk, IfErr};
ghost use Rattle.std.specs.Io.KnownBytes.{Keeps};
ghost use Rattle.acceptor_log_form.specs.declared.errors.LogError.TheVariants as log;
ghost use Rattle.cfarm_log.specs.declared.error.ListingError.TheVariants as told;
ghost use Rattle.cfarm_log.specs.Faults.{head_told};
ghost use Rattle.cfarm_log.specs.Listing.{IsStoppedAt, IsListed};

use crate::error::ListingError;
use crate::front::read_front;
use crate::head::{HeadFault, head_of};
use crate::printing::{print_end, print_front};
use acceptor_log_form::LogError;
use lang_base::NoMemory;
use std::alloc::Global;
use std::io::Write;

/// Where bytes with no header have their fault.
fn head_fault(fault: HeadFault) -> ListingError
    ensures { result ≡ head_told fault }
{
    match fault {
        HeadFault::NotAJournal => ListingError::Journal(LogError::NotAJournal, 0),
        HeadFault::EvenNodes => ListingError::Journal(LogError::OtherSource, 4),
    }
}

/// The records are cut at this byte: what was printed of those before it is flushed.
fn stop_at<W: Write>(place: usize, out: &mut W) -> ListingError
    ensures told { (result ≡ told.Journal log.BadRecord place) ⊎ (result ≡ told.Write) }
    ensures kept { Keeps (W.contents out.old) (W.contents out.new) }
{
    match out.flush() {
        Ok(()) => ListingError::Journal(LogError::BadRecord, place as u64),
        Err(_) => ListingError::Write,
    }
}

/// Lists a journal, of any of its forms: a line for its header, one for each record, and one for its end, where it is flushed. The
/// caller buffers. The order of the records in their rooms is not looked at.
pub fn list_journal<W: Write>(alloc: Global, bytes: &[u8], out: &mut W) -> Result<(), ListingError>
    // The records are exactly those that opening lists.
    ensures ok { OnOk result (IsListed bytes.now (W.contents out.old) (W.contents out.new)) }
    // The first fault is told that opening has with the header that stands there, with its byte, and what stands before it was printed;
    // where memory or the writer fails, a beginning of what is listed was printed.
    ensures stopped { IfErr result (λ e. IsStoppedAt bytes.now e (W.contents out.old) (W.contents out.new)) }
{
    let head = match head_of(bytes) {
        Ok(head) => head,
        Err(fault) => return Err(head_fault(fault)),
    };
    let found = match read_front(alloc, head.version, head.behind) {
        Ok(found) => found,
        Err(NoMemory) => return Err(ListingError::NoMemory),
    };
    let records = found.records.as_slice();
    match print_front(alloc, head.version, &head.header, records, out) {
        Ok(()) => {}
        Err(fault) => return Err(fault),
    }
    let place = bytes.len() - head.behind.len() + found.gate;
    if found.ends {
        print_end(alloc, records.len(), place + 1, out)
    } else {
        Err(stop_at(place, out))
    }
}
