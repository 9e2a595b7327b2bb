use crate::certificate::rows_of;
use crate::choosing::assignment_for;
use crate::interference::interference_of;
use crate::liveness::live_before;
use crate::register_set::RegisterSet;
use crate::worth::needless;
use alloc_check::{Alloc, EquationLists};
use lang_base::{NoMemory, Oracle, Row};
use ltl::Function;
use oracle_graphs::{Assignment, are_distinct, blocks_of, locations_of};
use rand_pcg::Pcg32;
use rtl_passes_marks::feeders_of;
use std::alloc::Global;

/// Proposes locations for registers, each a draw of those that are free for it; none where it takes too
/// many slots.
#[derive(Clone, Copy, Debug)]
pub struct AllocOracle;

impl Oracle for AllocOracle {
    type P = Alloc;

    fn propose(
        &mut self,
        alloc: Global,
        input: &rtl_language::Function,
        draws: &mut Pcg32,
    ) -> Result<Option<(Function, EquationLists)>, NoMemory> {
        allocate(alloc, input, draws)
    }
}

/// Blocks and equations for the input, with locations for its registers that the words choose.
fn allocate(
    alloc: Global,
    input: &rtl_language::Function,
    draws: &mut Pcg32,
) -> Result<Option<(Function, EquationLists)>, NoMemory> {
    let live = live_before(alloc, input.registers(), input.nodes().as_slice())?;
    let interference = interference_of(alloc, input, &live)?;
    match assignment_for(alloc, input.registers(), &interference, draws)? {
        None => Ok(None),
        Some(assignment) => with_assignment(alloc, input, &live, &assignment, draws),
    }
}

/// Blocks and equations for registers that lie where the assignment says; none where two parameters lie in one.
fn with_assignment(
    alloc: Global,
    input: &rtl_language::Function,
    live: &[RegisterSet],
    assignment: &Assignment,
    draws: &mut Pcg32,
) -> Result<Option<(Function, EquationLists)>, NoMemory> {
    let parameters = locations_of(alloc, assignment, input.parameters().as_slice())?;
    if !are_distinct(&parameters) {
        return Ok(None);
    }
    let left_out = needless(alloc, input.nodes().as_slice(), live, draws)?;
    let blocks = blocks_of(alloc, input, assignment, &left_out)?;
    let feeders = feeders_of(alloc, input)?;
    let equations = rows_of(alloc, assignment, &feeders, live)?;
    let output = Function::new(
        Row::from_vec(parameters),
        assignment.slots,
        input.entry(),
        Row::from_vec(blocks),
    );
    Ok(Some((output, equations)))
}
