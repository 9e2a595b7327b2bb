//! The records of a journal that is open.

ghost use Rattle.std.specs.Prelude.{◌≡◌, ◌≢◌, ◌≤◌, ◌+◌, true, length, IfOk, IfErr, MatchResult};
ghost use Rattle.acceptor_log_form.specs.Text.{StandsFor, blocks, header_size};
ghost use Rattle.acceptor_log_form.specs.Fault.{HasFault};
ghost use Rattle.acceptor_log_form.specs.declared.errors.LogError.TheVariants.{NoMemory};
ghost use Rattle.acceptor_log.specs.Acknowledged.{acknowledged, IsReady};

use acceptor_log::{Listed, Log, read};
use acceptor_log_form::{Header, LogError, Record, no_fault, one_list};
use durable_pair::Pair;
use std::alloc::Global;

/// The journal, and the records that it has acknowledged. No call is made of the pair. Where they are not listed it comes back.
pub(crate) fn list<P: Pair>(
    alloc: Global,
    log: Log<P>,
) -> Result<(Log<P>, Vec<Record>), (P, LogError)>
    ensures ok { IfOk result (λ listed. (listed.0.going ≡ true) × (listed.0.header ≡ log.header)) }
    ensures same { MatchResult result (λ listed. listed.0.disk ≡ log.disk) (λ refused. refused.0 ≡ log.disk) }
    ensures ready { IsReady P.Disk log → IfOk result (λ listed. IsReady P.Disk listed.0) }
    ensures acknowledged { IsReady P.Disk log → IfOk result (λ it. acknowledged P.seen it.0 ≡ it.1.items) }
    ensures records { IsReady P.Disk log → IfOk result (λ listed. listed.1.items ≡ acknowledged P.seen log) }
    ensures faults { IsReady P.Disk log → IfErr result (λ refused. refused.1 ≡ LogError.NoMemory) }
    ensures never { IfErr result (λ refused. refused.1 ≢ LogError.Device) }
{
    one_list();
    no_fault();
    let header = *log.header();
    let disk = log.into_disk();
    match read_lent(alloc, &header, &disk) {
        Ok(found) => {
            let Listed { records, gate } = found;
            let log = Log::resting(alloc, disk, &header, records.len() as u64, gate as u64);
            Ok((log, records))
        }
        Err(fault) => Err((disk, fault)),
    }
}

/// What the bytes on the new disk stand for.
fn read_lent<P: Pair>(alloc: Global, header: &Header, pair: &P) -> Result<Listed, LogError>
    ensures stands { P.is_whole pair.now
        → IfOk result (λ it. StandsFor header.now it.records.items (P.seen pair.now)) }
    ensures gate { IfOk result (λ found. found.gate ≡ header_size + length (blocks found.records.items)) }
    ensures fewer { IfOk result (λ found. length found.records.items ≤ found.gate) }
    ensures refused { P.is_whole pair.now
        → IfErr result (λ e. e ≢ NoMemory → HasFault header.now (P.seen pair.now) e) }
    ensures never { IfErr result (λ e. e ≢ LogError.Device) }
{
    read(alloc, header, pair.lent())
}
