//! Migration of a journal on a pair of disks.

ghost use Rattle.std.specs.Prelude.{◌≡◌, ◌≢◌, ◌<◌, ◌≤◌, ◌↔◌, true, Err, OnOk, IfOk, IfErr};
ghost use Rattle.durable_model.specs.Honest.{Risen};
ghost use Rattle.acceptor_log.specs.Acknowledged.{IsReady};
ghost use Rattle.acceptor_log.specs.Faults.{log_fault};
ghost use Rattle.acceptor_log_migrating.specs.Moving.{disk_back, IsRefusedFor, IsTurned, HasMigrated, IsLaid, Moves, RefusalKeepsOld, IsUnwritten};

use crate::turning::turn;
use acceptor_log::Log;
use acceptor_log_form::{Header, LogError};
use acceptor_log_translating::translate;
use durable_model::DiskError;
use durable_pair::Pair;
use std::alloc::Global;

/// Migrates the journal on the old disk to the new one, over what is there, and opens that. The old disk was synced, so
/// that a crash leaves what a read of it gives: that is the caller's to see to. Where it refuses, the pair comes back; what
/// it refuses for other than the device or memory is a fault of the old journal, and then nothing was written.
pub fn migrate<P: Pair>(alloc: Global, pair: P, header: &Header) -> Result<Log<P>, (P, LogError)>
    requires { 0 < header.now.nodes }
    ensures ok { IfOk result (λ log. (log.going ≡ true) × (log.header ≡ header.now)) }
    ensures whole { P.is_whole (disk_back result) ↔ P.is_whole pair }
    // Once it has answered the pair is honest as a disk, and rests on what the old journal's records were made to.
    ensures ready { P.is_whole pair → IfOk result (IsReady P.Disk) }
    ensures migrated { P.is_whole pair → IfOk result (HasMigrated P.Disk P.Pair.own header.now pair) }
    ensures turned { P.is_whole pair → IfOk result (λ log. IsTurned P.Pair.own pair log.disk) }

    // A crash at any moment leaves the old journal, or the new one.
    ensures any_moment { P.is_whole pair → Moves P.Disk P.Pair.own header.now pair (disk_back result) }

    // It does not give up by itself, and what it gives up for the old journal's sake it wrote nothing for.
    ensures stays { P.is_whole pair → IfErr result (λ refused. RefusalKeepsOld P.Disk P.Pair.own pair refused.0 refused.1) }
    ensures refused { P.is_whole pair → IfErr result (λ refused. IsRefusedFor header.now (P.old_seen pair) refused.1) }
    ensures unwritten { P.is_whole pair
        → IfErr result (λ refused. IsUnwritten P.Disk P.Pair.own pair refused.0 refused.1) }
    ensures failed { IfErr result (λ refused. refused.1 ≡ LogError.Device
        → Risen (P.faults pair) (P.faults refused.0)) }
    ensures later { P.faults pair ≤ P.faults (disk_back result) }
    ensures unfailed { IfOk result (λ log. P.faults log.disk ≡ P.faults pair) }
    ensures unfailed_refused { IfErr result (λ refused. refused.1 ≢ LogError.Device
        → P.faults refused.0 ≡ P.faults pair) }
{
    let mut pair = pair;
    match carry_over(alloc, header, &mut pair) {
        Ok(laid) => Ok(Log::resting(alloc, pair, header, laid.count, laid.gate)),
        Err(refused) => Err((pair, refused)),
    }
}

/// How many records were put down, and where the closed gate behind them stands.
#[derive(Clone, Copy)]
struct Laid {
    count: u64,
    gate: u64,
}

/// Translates the old journal, and turns to the new text.
fn carry_over<P: Pair>(alloc: Global, header: &Header, pair: &mut P) -> Result<Laid, LogError>
    requires { 0 < header.now.nodes }
    ensures whole { P.is_whole pair.new ↔ P.is_whole pair.old }
    ensures rests { P.is_whole pair.old → IfOk result (IsLaid P.Disk P.Pair.own header.now pair.old pair.new) }
    ensures fewer { IfOk result (λ laid. laid.count ≤ laid.gate) }
    ensures turned { P.is_whole pair.old → OnOk result (IsTurned P.Pair.own pair.old pair.new) }
    ensures any_moment { P.is_whole pair.old → Moves P.Disk P.Pair.own header.now pair.old pair.new }
    ensures stays { P.is_whole pair.old → IfErr result (RefusalKeepsOld P.Disk P.Pair.own pair.old pair.new) }
    ensures refused { P.is_whole pair.old → IfErr result (IsRefusedFor header.now (P.old_seen pair.old)) }
    ensures unwritten { P.is_whole pair.old → IfErr result (IsUnwritten P.Disk P.Pair.own pair.old pair.new) }
    ensures failed { result ≡ Err LogError.Device → Risen (P.faults pair.old) (P.faults pair.new) }
    ensures unfailed { result ≢ Err LogError.Device → P.faults pair.new ≡ P.faults pair.old }
    ensures later { P.faults pair.old ≤ P.faults pair.new }
{
    match translate(alloc, header, pair.lent_old()) {
        Ok(text) => match turn(pair, text.bytes.as_slice()) {
            Ok(()) => Ok(Laid {
                count: text.count,
                gate: text.gate,
            }),
            Err(fault) => Err(told(fault)),
        },
        Err(refused) => Err(refused),
    }
}

/// What a failed call of the disk is told as.
fn told(fault: DiskError) -> LogError
    ensures { result ≡ log_fault fault }
{
    match fault {
        DiskError::Device => LogError::Device,
        DiskError::NoMemory => LogError::NoMemory,
    }
}
