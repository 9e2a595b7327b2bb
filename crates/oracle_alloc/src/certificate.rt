//! The certificate: at each marked node, that each live register's word lies in the register's location.

use crate::register_set::RegisterSet;
use alloc_check::{Equation, EquationLists};
use lang_base::{NoMemory, Row};
use oracle_graphs::Assignment;
use rtl_passes_marks::NodeRow;
use std::alloc::Global;

fn equations_at(
    alloc: Global,
    assignment: &Assignment,
    live: &RegisterSet,
) -> Result<Row<Equation>, NoMemory> {
    let members = live.members(alloc)?;
    let mut equations = Vec::with_capacity(alloc, members.len())?;
    for register in &members {
        equations.push(Equation {
            register: *register,
            location: assignment.location_of(*register),
        })?;
    }
    Ok(Row::from_vec(equations))
}

/// The rows of marked nodes, where these registers are live; none where none is.
pub(crate) fn rows_of(
    alloc: Global,
    assignment: &Assignment,
    feeders: &[Option<u16>],
    live: &[RegisterSet],
) -> Result<EquationLists, NoMemory> {
    let mut rows = Vec::new(alloc);
    for (feeder, (node, set)) in feeders.iter().zip((0..=u16::MAX).zip(live.iter())) {
        if feeder.is_none() {
            let entries = equations_at(alloc, assignment, set)?;
            if !entries.is_empty() {
                rows.push(NodeRow { node, entries })?;
            }
        }
    }
    Ok(Row::from_vec(rows))
}
