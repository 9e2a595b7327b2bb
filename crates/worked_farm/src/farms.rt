//! Farms, from their text to their answer.

ghost use Rattle.std.specs.Prelude.{◌≡◌, ◌<◌};

use crate::failing::failing_told;
use crate::fixed::fixed_told;
use crate::linking::{all_alike, all_meet, disks_of, ran};
use crate::reopened::reopened_told;
use crate::rows::{Row, Trial};
use crate::stranger::stranger_told;
use crate::together::together_told;
use crate::turning::TURNS;
use farm_nodes::{Farm, Optimising, optimisers_of, run_threads};
use parallel_validate::OpenGate;
use rooms_hall::{Hall, Naming, Opened};
use std::alloc::Global;
use std::marker::Brand;
use std::sync::Wait;
use std::thread::Threads;
use worked_row_files::owned;

/// The answer, in a hall of its own.
pub(crate) fn told<R: Threads + Wait + Sync>(threads: &R, alloc: Global, row: Row) -> Option<String>
    requires { 0 < row.workers }
{
    let Ok(opened) = Opened::new(alloc) else {
        return None;
    };
    told_in::<Brand, R>(threads, alloc, opened, row)
}

/// The same in a hall that has a name.
fn told_in<H: Naming + Send, R: Threads + Wait + Sync>(
    threads: &R,
    alloc: Global,
    opened: Opened,
    row: Row,
) -> Option<String>
    requires hall { opened ≡ H.hall }
    requires workers { 0 < row.workers }
{
    let hall = opened.named::<H>();
    match row.trial {
        Trial::Run => farm_told(threads, alloc, &hall, &row),
        Trial::Fixed => fixed_told(threads, alloc, &hall, &row.text),
        Trial::Together => together_told(threads, alloc, &hall, &row.text),
        Trial::Failing => failing_told(threads, alloc, &hall, &row.text, row.crashes),
        Trial::Reopened => reopened_told(threads, alloc, &hall, &row.text),
        Trial::Stranger => stranger_told(threads, alloc, &hall, &row.text),
    }
}

/// What a farm links and runs.
fn farm_told<H: Naming + Send, R: Threads + Wait + Sync>(
    threads: &R,
    alloc: Global,
    hall: &Hall<H>,
    row: &Row,
) -> Option<String>
    requires { 0 < row.now.workers }
{
    let count = usize::from(row.quorums.nodes());
    let Some(disks) = disks_of(alloc, count) else {
        return None;
    };
    let Ok(oracles) = optimisers_of(alloc, count, Optimising::Drawn) else {
        return None;
    };
    let (text, seed, quorums) = (&row.text, row.seed, row.quorums);
    let Ok(farm) = Farm::open(threads, alloc, hall, text, disks, oracles, seed, quorums) else {
        return None;
    };
    let Farm { source, nodes } = farm;
    let Ok(mut nodes) = run_threads(threads, alloc, nodes, TURNS, row.workers, &OpenGate) else {
        return None;
    };
    if nodes.is_empty() || !all_meet(&mut nodes) {
        return owned(alloc, "not all met");
    }
    if !all_alike(alloc, &source, &nodes) {
        return owned(alloc, "other programs");
    }
    ran(alloc, &source, &nodes[0])
}
