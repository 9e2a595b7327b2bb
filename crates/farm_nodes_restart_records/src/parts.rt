//! The kept parts that records leave, with the last record and without.

ghost use Rattle.std.specs.Prelude.{◌≡◌, ◌<◌, ◌++◌, ◌∷◌, [], IfOk, IfErr, OnOk};
ghost use Rattle.acceptor_log_form.specs.declared.record.Record.{Record};
ghost use Rattle.acceptor_log_form.specs.Order.{AreInOrder};
ghost use Rattle.farm_nodes_restart_records.specs.Found.{IsButLast, IsOrderFault, ShowFront, ShowParts};

use acceptor_log_form::{Header, LogError, Record, kept_parts};
use paxos_core_world::kept::Kept;
use std::alloc::Global;

/// What all of the records leave of the rooms, and what those before the last one leave. Records out of order are refused.
pub(crate) fn both_parts(
    alloc: Global,
    header: &Header,
    rooms: u16,
    records: &[Record],
) -> Result<(Vec<Kept>, Vec<Kept>), LogError>
    requires { 0 < header.now.nodes }
    ensures whole { IfOk result (λ parts. ShowParts rooms parts.0.items records.now) }
    ensures front { IfOk result (λ parts. ShowFront rooms parts.1.items records.now) }
    ensures in_order { OnOk result (AreInOrder header.now.nodes header.now.node rooms records.now) }
    ensures refused { IfErr result (IsOrderFault header.now rooms records.now) }
{
    let whole = match kept_parts(alloc, header, rooms, records) {
        Ok(whole) => whole,
        Err(error) => return Err(error),
    };
    match front_parts(alloc, header, rooms, records) {
        Ok(front) => Ok((whole, front)),
        Err(error) => Err(error),
    }
}

/// What the records before the last one leave.
fn front_parts(
    alloc: Global,
    header: &Header,
    rooms: u16,
    records: &[Record],
) -> Result<Vec<Kept>, LogError>
    requires { 0 < header.now.nodes }
    ensures front { IfOk result (λ parts. ShowFront rooms parts.items records.now) }
    ensures refused { IfErr result (IsOrderFault header.now rooms records.now) }
{
    let front = but_last(records);
    kept_parts(alloc, header, rooms, front)
}

/// The records before the last one.
pub(crate) fn but_last(records: &[Record]) -> &[Record]
    ensures { IsButLast records.now result.now }
{
    if let [front @ .., _last] = records {
        front
    } else {
        records
    }
}
