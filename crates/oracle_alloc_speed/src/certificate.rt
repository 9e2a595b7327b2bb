//! The certificate: at each marked node, that each live register's word lies where its web does.

use lang_base::{NoMemory, Row};
use oracle_graphs::Assignment;
use oracle_webs::{Equation, EquationLists, Places, Webs};
use rtl_passes_marks::NodeRow;
use std::alloc::Global;

fn equations_at(
    alloc: Global,
    assignment: &Assignment,
    places: &Places,
    webs: &Webs,
    node: u16,
) -> Result<Row<Equation>, NoMemory> {
    let span = places.before(node);
    let mut equations = Vec::new(alloc);
    for place in span.from..span.end {
        if let Some(register) = places.register(place)
            && let Some(web) = webs.at_places.get(place as usize)
        {
            equations.push(Equation {
                register,
                location: assignment.location_of(*web),
            })?;
        }
    }
    Ok(Row::from_vec(equations))
}

/// The rows of marked nodes, where a register is live.
pub(crate) fn rows_of(
    alloc: Global,
    assignment: &Assignment,
    places: &Places,
    webs: &Webs,
    feeders: &[Option<u16>],
) -> Result<EquationLists, NoMemory> {
    let mut rows = Vec::new(alloc);
    for (node, feeder) in (0..=u16::MAX).zip(feeders.iter()) {
        if feeder.is_none() {
            let entries = equations_at(alloc, assignment, places, webs, node)?;
            if !entries.is_empty() {
                rows.push(NodeRow { node, entries })?;
            }
        }
    }
    Ok(Row::from_vec(rows))
}
