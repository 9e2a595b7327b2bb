//! The equations of live registers and their slots, in rows at marked nodes.

ghost use Rattle.std.specs.Prelude.{◌≡◌, ◌<◌, ◌^◌, ◌++◌, map, length, slice_get, IsTrue, ◌↔◌, Some, None, IfOk, OnOk};
ghost use Rattle.alloc_check.specs.Rows.{row_at, rows_from};
ghost use Rattle.alloc_check.specs.Slots.{own};

use alloc_check_live::Numbers;
use alloc_check_rules::Equation;
use lang_base::{NoMemory, Row};
use locations::Location;
use rtl_acts::Register;
use rtl_passes_marks::NodeRow;
use std::alloc::Global;

fn own(register: Register) -> Equation
    ensures { result ≡ own register }
{
    Equation {
        register,
        location: Location::InSlot(register),
    }
}

fn own_each(alloc: Global, registers: &[Register]) -> Result<Row<Equation>, NoMemory>
    ensures { IfOk result (λ equations. equations ≡ map own registers.now) }
{
    let mut equations = Vec::new(alloc);
    for register in registers {
        equations.push(own(*register))?;
    }
    Ok(Row::from_vec(equations))
}

/// Whether the node is marked, as what feeds each node tells.
fn is_marked(feeders: &[Option<u16>], n: usize) -> bool
    ensures { IsTrue result ↔ (slice_get feeders.now n ≡ Some None) }
{
    match feeders.get(n) {
        Some(feeder) => feeder.is_none(),
        None => false,
    }
}

/// Adds the row of a node if that is marked and anything is live there.
fn push_own(
    alloc: Global,
    rows: &mut Vec<NodeRow<Equation>>,
    feeders: &[Option<u16>],
    n: u16,
    registers: &[Register],
) -> Result<(), NoMemory>
    ensures { OnOk result (rows.new.items ≡ rows.old.items ++ row_at (slice_get feeders.now n) n registers.now) }
{
    if !is_marked(feeders, usize::from(n)) {
        return Ok(());
    }
    if registers.is_empty() {
        return Ok(());
    }
    let entries = own_each(alloc, registers)?;
    rows.push(NodeRow { node: n, entries })?;
    Ok(())
}

/// At each marked node each register of its list with its own slot; no row where there is none.
pub(crate) fn own_rows(
    alloc: Global,
    feeders: &[Option<u16>],
    lists: &[Numbers],
) -> Result<Row<NodeRow<Equation>>, NoMemory>
    requires { length lists.now < 2 ^ 16 }
    ensures { IfOk result (λ rows. rows ≡ rows_from feeders.now 0 lists.now) }
{
    let mut rows = Vec::new(alloc);
    for (n, registers) in lists.iter().enumerate() {
        push_own(alloc, &mut rows, feeders, n as u16, registers.as_slice())?;
    }
    Ok(Row::from_vec(rows))
}
