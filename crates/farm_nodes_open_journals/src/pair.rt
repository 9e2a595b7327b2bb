//! The journal of a node on its pair of disks.

ghost use Rattle.std.specs.Prelude.{◌≡◌, ◌≢◌, ◌<◌, ◌≤◌, ◌↔◌, true, IfOk, IfErr};
ghost use Rattle.durable_model.specs.Honest.{Risen};
ghost use Rattle.acceptor_log.specs.Acknowledged.{acknowledged, IsSound};
ghost use Rattle.acceptor_log_migrating.specs.Moving.{IsRefusedFor, IsTurned, Moves, RefusalKeepsOld};
ghost use Rattle.farm_nodes_open_journals.specs.Journals.{Opens};
ghost use Rattle.farm_nodes_open_journals.specs.Steps.{opened_disk, AreMigrated, IsSameOrMigrated};

use crate::journal::open_journal;
use crate::listing::list;
use acceptor_log::Log;
use acceptor_log_form::{Header, LogError, Record};
use acceptor_log_migrating::migrate;
use durable_pair::Pair;
use farm_nodes_open_old::{OldDisk, old_disk};
use std::alloc::Global;

/// The journal of a node on its pair, and the records that it lists. An old one that counts is migrated; where there is
/// none it gets one without records. Where it is refused the pair comes back.
pub(crate) fn open_pair<P: Pair>(
    alloc: Global,
    pair: P,
    header: &Header,
) -> Result<(Log<P>, Vec<Record>), (P, LogError)>
    requires { 0 < header.now.nodes }
    ensures { Opens P.Disk P.Pair.own header.now pair result }
{
    let mut pair = pair;
    match old_disk(alloc, &mut pair) {
        Ok(OldDisk::Counts) => match open_old(alloc, pair, header) {
            Ok(opened) => Ok(opened),
            Err(refused) => Err(refused),
        },
        Ok(OldDisk::Empty) => match open_journal(alloc, pair, header) {
            Ok(opened) => Ok(opened),
            Err(refused) => Err(refused),
        },
        Ok(OldDisk::Spent) => match Log::open(alloc, pair, header) {
            Ok(opened) => Ok(opened),
            Err(refused) => Err(refused),
        },
        Err(fault) => Err((pair, fault)),
    }
}

/// Migrates the old journal, and lists the records of the new one.
fn open_old<P: Pair>(
    alloc: Global,
    pair: P,
    header: &Header,
) -> Result<(Log<P>, Vec<Record>), (P, LogError)>
    requires { 0 < header.now.nodes }
    ensures ok { IfOk result (λ opened. (opened.0.going ≡ true) × (opened.0.header ≡ header.now)) }
    ensures whole { P.is_whole (opened_disk result) ↔ P.is_whole pair }
    ensures sound { IfOk result (λ opened. IsSound P.Disk opened.0) }
    ensures honest { P.is_whole pair → IfOk result (λ opened. P.is_honest opened.0.disk) }
    ensures acknowledged { P.is_whole pair
        → IfOk result (λ opened. acknowledged P.seen opened.0 ≡ opened.1.items) }
    ensures moved { P.is_whole pair → IfOk result (λ opened. AreMigrated P.Pair.own header.now pair opened.1.items) }
    ensures turned { P.is_whole pair → IfOk result (λ opened. IsTurned P.Pair.own pair opened.0.disk) }
    ensures any_moment { P.is_whole pair → Moves P.Disk P.Pair.own header.now pair (opened_disk result) }
    ensures stays { P.is_whole pair → IfErr result (λ refused. RefusalKeepsOld P.Disk P.Pair.own pair refused.0 refused.1) }
    ensures refused { P.is_whole pair → IfErr result (λ refused. IsRefusedFor header.now (P.old_seen pair) refused.1) }
    ensures unwritten { P.is_whole pair
        → IfErr result (λ r. IsSameOrMigrated P.Disk P.Pair.own header.now pair r.0 r.1) }
    ensures failed { IfErr result (λ refused. refused.1 ≡ LogError.Device
        → Risen (P.faults pair) (P.faults refused.0)) }
    ensures later { P.faults pair ≤ P.faults (opened_disk result) }
    ensures unfailed { IfOk result (λ opened. P.faults opened.0.disk ≡ P.faults pair) }
    ensures unfailed_refused { IfErr result (λ refused. refused.1 ≢ LogError.Device
        → P.faults refused.0 ≡ P.faults pair) }
{
    match migrate(alloc, pair, header) {
        Ok(log) => match list(alloc, log) {
            Ok(opened) => Ok(opened),
            Err(refused) => Err(refused),
        },
        Err(refused) => Err(refused),
    }
}
