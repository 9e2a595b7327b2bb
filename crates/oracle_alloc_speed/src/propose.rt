ghost use Rattle.std.specs.Prelude.{◌≡◌, All, length};
ghost use Rattle.rtl_language.specs.Function.{InstructionFits};

use crate::certificate::rows_of;
use crate::classes::Classes;
use crate::gathering::{classes_of, needless};
use crate::joining::join_moves;
use crate::placing::{ALL, BESIDE_SLOTS, in_registers};
use crate::slots::give_slots;
use lang_base::{NoMemory, Oracle, Row};
use ltl::Function;
use oracle_graphs::{Assignment, Edges, are_distinct, blocks_for, depths_of, locations_of};
use oracle_webs::{
    Alloc, AllocOracle, EquationLists, Places, Webs, all_renamed, edges_of, live_before, webs_of,
};
use rand_core::utils::NextWord;
use rand_pcg::Pcg32;
use rtl_language::Instruction;
use rtl_passes_marks::feeders_of;
use std::alloc::Global;

/// Proposes locations so that what is run most lies in registers of the machine. Where more than one is free a draw
/// says which is taken. A function that is too large for it is left to the optimiser that draws.
#[derive(Clone, Copy, Debug)]
pub struct AllocSpeed;

impl Oracle for AllocSpeed {
    type P = Alloc;

    fn propose(
        &mut self,
        alloc: Global,
        input: &rtl_language::Function,
        draws: &mut Pcg32,
    ) -> Result<Option<(Function, EquationLists)>, NoMemory> {
        let heuristic = u8::try_from(draws.next_word() % 8).unwrap_or(0);
        match allocate(alloc, input, heuristic)? {
            None => AllocOracle.propose(alloc, input, draws),
            made => Ok(made),
        }
    }
}

/// The edges of each node.
fn all_edges(alloc: Global, nodes: &[Instruction]) -> Result<Vec<Edges>, NoMemory> {
    let mut edges = Vec::with_capacity(alloc, nodes.len())?;
    for instruction in nodes {
        edges.push(edges_of(instruction))?;
    }
    Ok(edges)
}

/// Where the webs of each class lie.
fn assignment_of(
    alloc: Global,
    classes: &mut Classes,
    count: u16,
    nodes: usize,
    heuristic: u8,
) -> Result<Option<Assignment>, NoMemory> {
    let (mut assignment, left) = in_registers(alloc, classes, count, nodes, ALL, heuristic)?;
    if !left.is_empty() {
        let (again, left) = in_registers(alloc, classes, count, nodes, BESIDE_SLOTS, heuristic)?;
        assignment = again;
        if !give_slots(alloc, &classes.lives, left.as_slice(), &mut assignment)? {
            return Ok(None);
        }
    }
    for web in 0..count {
        let class = classes.class_of(web);
        assignment.give(web, assignment.location_of(class));
    }
    Ok(Some(assignment))
}

/// Blocks and equations for the input; none where it is too large.
fn allocate(
    alloc: Global,
    input: &rtl_language::Function,
    heuristic: u8,
) -> Result<Option<(Function, EquationLists)>, NoMemory> {
    let live = live_before(alloc, input.registers(), input.nodes().as_slice())?;
    let Some(places) = Places::of(alloc, &live)? else {
        return Ok(None);
    };
    let Some(webs) = webs_of(alloc, input, &places)? else {
        return Ok(None);
    };
    with_webs(alloc, input, &places, &webs, heuristic)
}

fn with_webs(
    alloc: Global,
    input: &rtl_language::Function,
    places: &Places,
    webs: &Webs,
    heuristic: u8,
) -> Result<Option<(Function, EquationLists)>, NoMemory> {
    let nodes = input.nodes().as_slice();
    let depths = depths_of(alloc, &all_edges(alloc, nodes)?)?;
    let by_webs = all_renamed(alloc, places, webs, nodes)?;
    let left_out = needless(alloc, places, nodes)?;
    let mut classes = classes_of(alloc, input, places, webs, &by_webs, &depths)?;
    join_moves(
        alloc,
        &mut classes,
        places,
        webs,
        &by_webs,
        &left_out,
        &depths,
        input.entry(),
    )?;
    match assignment_of(alloc, &mut classes, webs.count, nodes.len(), heuristic)? {
        None => Ok(None),
        Some(assignment) => with_assignment(
            alloc,
            input,
            places,
            webs,
            &by_webs,
            &left_out,
            &assignment,
        ),
    }
}

/// Blocks and equations where the webs lie so.
fn with_assignment(
    alloc: Global,
    input: &rtl_language::Function,
    places: &Places,
    webs: &Webs,
    by_webs: &[Instruction],
    left_out: &[bool],
    assignment: &Assignment,
) -> Result<Option<(Function, EquationLists)>, NoMemory>
    requires count { length by_webs.now ≡ length input.now.nodes }
    requires fit { All (InstructionFits 65536 (length input.now.nodes)) by_webs.now }
{
    if webs.parameters.len() != input.parameters().len() {
        return Ok(None);
    }
    let _nodes = input.nodes();
    let parameters = locations_of(alloc, assignment, webs.parameters.as_slice())?;
    if !are_distinct(&parameters) {
        return Ok(None);
    }
    let blocks = blocks_for(alloc, by_webs, assignment, left_out)?;
    let feeders = feeders_of(alloc, input)?;
    let equations = rows_of(alloc, assignment, places, webs, &feeders)?;
    let output = Function::new(
        Row::from_vec(parameters),
        assignment.slots,
        input.entry(),
        Row::from_vec(blocks),
    );
    Ok(Some((output, equations)))
}
