ghost use Rattle.std.specs.Prelude.{◌≡◌, ◌≢◌, ◌≤◌, ◌↔◌, [], true, IfOk, IfErr};
ghost use Rattle.durable_model.specs.Honest.{Unchanged, Risen};
ghost use Rattle.acceptor_log_form.specs.Text.{StandsFor};
ghost use Rattle.acceptor_log_form.specs.declared.errors.LogError.TheVariants.{Device};
ghost use Rattle.acceptor_log.specs.Acknowledged.{acknowledged, IsSound};
ghost use Rattle.farm_nodes_open_journals.specs.Steps.{opened_disk, first_text, IsFaultOf, LeavesNothingElse};

use crate::empty::is_empty;
use acceptor_log::Log;
use acceptor_log_form::{Header, LogError, Record};
use durable_model::Disk;
use std::alloc::Global;

/// The journal on a disk, and the records that stand in it. Where it is refused the disk comes back.
pub(crate) fn open_journal<D: Disk>(
    alloc: Global,
    disk: D,
    header: &Header,
) -> Result<(Log<D>, Vec<Record>), (D, LogError)>
    ensures sound { IfOk result (λ opened. IsSound D.Disk opened.0) }
    ensures ok { IfOk result (λ opened. (opened.0.going ≡ true) × (opened.0.header ≡ header.now)) }
    ensures honest { D.is_honest (opened_disk result) ↔ D.is_honest disk }
    ensures acknowledged { D.is_honest disk
        → IfOk result (λ opened. acknowledged D.seen opened.0 ≡ opened.1.items) }

    // An empty disk gets the journal of no records.
    ensures begun { D.is_honest disk → D.seen disk ≡ [] → IfOk result (λ opened. opened.1.items ≡ []) }
    ensures bytes { D.is_honest disk → D.seen disk ≡ []
        → IfOk result (λ it. D.seen it.0.disk ≡ first_text header.now) }

    // Another lists the records that its bytes stand for, and is as it was.
    ensures listed { D.is_honest disk → D.seen disk ≢ []
        → IfOk result (λ r. StandsFor header.now r.1.items (D.seen disk)) }
    ensures unchanged { D.is_honest disk → D.seen disk ≢ [] → Unchanged D.seen D.may_leave disk (opened_disk result) }
    ensures any_moment { D.is_honest disk → D.seen disk ≢ [] → LeavesNothingElse D.Disk disk (opened_disk result) }

    // It does not give up by itself: the bytes of a disk that is not empty have the fault, or memory or the device failed.
    ensures refused { D.is_honest disk → IfErr result (λ refused. IsFaultOf header.now (D.seen disk) refused.1) }
    ensures unwritten { D.is_honest disk
        → IfErr result (λ it. it.1 ≢ Device → Unchanged D.seen D.may_leave disk it.0) }
    ensures failed { IfErr result (λ refused. refused.1 ≡ LogError.Device
        → Risen (D.faults disk) (D.faults refused.0)) }
    ensures later { D.faults disk ≤ D.faults (opened_disk result) }
    ensures unfailed { IfOk result (λ opened. D.faults opened.0.disk ≡ D.faults disk) }
    ensures unfailed_refused { IfErr result (λ refused. refused.1 ≢ LogError.Device
        → D.faults refused.0 ≡ D.faults disk) }
{
    let mut disk = disk;
    let empty = match is_empty(alloc, &mut disk) {
        Ok(empty) => empty,
        Err(fault) => return Err((disk, fault)),
    };
    if empty {
        match Log::create(alloc, disk, header) {
            Ok(log) => Ok((log, Vec::new(alloc))),
            Err(refused) => Err(refused),
        }
    } else {
        match Log::open(alloc, disk, header) {
            Ok(opened) => Ok(opened),
            Err(refused) => Err(refused),
        }
    }
}
