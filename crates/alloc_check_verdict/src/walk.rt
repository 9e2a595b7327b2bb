//! Back through all nodes, the last first: a list is carried from where a block goes on to what the
//! block needs, and only where a node is marked compared with its row, which is borrowed. A list that no
//! other node waits for is let go of, so that of a chain of nodes one list is kept.

ghost use Rattle.std.specs.Prelude.{◌≡◌, ◌↔◌, ◌<◌, [], ◌∷◌, ◌++◌, length, All, Contains, Some, slice_get, IsTrue, IfOk, OnOk};
ghost use Rattle.std.specs.List.{AllByRecursion, flat_map};
ghost use Rattle.rtl_language.specs.Function.{IsFunction};
ghost use Rattle.rtl_passes_marks.specs.Faults.{TellsLowest};
ghost use Rattle.rtl_passes_marks.specs.Handing.{left_by};
ghost use Rattle.rtl_passes_marks.specs.Marks.{AreFeeders, IsMarked};
ghost use Rattle.alloc_check_rules.specs.Pairs.{successors_of};
ghost use Rattle.alloc_check_rules.specs.Rules.{equations_at, IsRightAt};
ghost use Rattle.alloc_check_proof.specs.Fill.{behind, needed};
ghost use Rattle.alloc_check_proof.specs.Needed.{KeepsEquations};
ghost use Rattle.alloc_check_proof.specs.Sets.{SameSet};
ghost use Rattle.alloc_check_proof.specs.Allocated.{filled, HasForm};
ghost use Rattle.alloc_check_lists.specs.Ranks.{RiseFrom};
ghost use Rattle.alloc_check_verdict.specs.Right.{BeginsRight};
ghost use Rattle.alloc_check_verdict.specs.Walk.{stands_at, found_in, AreTaken, GoesBack};

use crate::carried::put_in_order;
use crate::found::{Found, equations_in};
use alloc_check_lists::{are_among, hold_at_entry};
use alloc_check_proof::needed_before;
use alloc_check_rules::Equation;
use lang_base::{NoMemory, Row};
use ltl::Block;
use rtl_language::Instruction;
use rtl_passes_marks::{NodeRow, Said, empty_lists, is_fed, take};
use std::alloc::Global;

/// The equations at a node: a row's are borrowed, and a list that was carried there is taken away.
fn take_one<'a>(
    alloc: Global,
    feeders: &[Option<u16>],
    said: &Said<'a, Equation>,
    lists: &mut [Row<Equation>],
    node: u16,
) -> Found<'a>
    requires { node < length lists.old }
    ensures equations { found_in result ≡ stands_at feeders.now said.now lists.old node }
    ensures left { lists.new ≡ left_by (slice_get feeders.now node) node lists.old }
{
    let place = usize::from(node);
    if is_fed(feeders, place) {
        Found::Taken(take(alloc, lists, place))
    } else {
        Found::Borrowed(said.at(place))
    }
}

/// Two lists in one, in memory for both.
fn joined(alloc: Global, first: &[Equation], second: &[Equation]) -> Result<Vec<Equation>, NoMemory>
    ensures { IfOk result (λ all. all.items ≡ first.now ++ second.now) }
{
    let mut all = Vec::with_capacity(alloc, first.len().saturating_add(second.len()))?;
    all.extend_from_slice(first)?;
    all.extend_from_slice(second)?;
    Ok(all)
}

/// The equations at two nodes, which may be one.
fn take_two<'a>(
    alloc: Global,
    feeders: &[Option<u16>],
    said: &Said<'a, Equation>,
    lists: &mut [Row<Equation>],
    node: u16,
    other: u16,
) -> Result<Found<'a>, NoMemory>
    requires node { node < length lists.old }
    requires other { other < length lists.old }
    ensures equations { IfOk result
        (λ found. SameSet (found_in found) (flat_map (stands_at feeders.now said.now lists.old) (node ∷ (other ∷ [])))) }
    ensures left { OnOk result (AreTaken feeders.now (node ∷ (other ∷ [])) lists.old lists.new) }
{
    let first = take_one(alloc, feeders, said, lists, node);
    if other == node {
        return Ok(first);
    }
    let second = take_one(alloc, feeders, said, lists, other);
    let all = joined(alloc, equations_in(&first), equations_in(&second))?;
    Ok(Found::Taken(all))
}

/// The equations where the instruction can go on. A list that was carried there is taken away, since
/// this node alone leads there.
fn take_behind<'a>(
    alloc: Global,
    feeders: &[Option<u16>],
    said: &Said<'a, Equation>,
    lists: &mut [Row<Equation>],
    instruction: &Instruction,
) -> Result<Found<'a>, NoMemory>
    requires { AllByRecursion (λ s. s < length lists.old) (successors_of instruction.now) }
    ensures equations { IfOk result
        (λ found. SameSet (found_in found) (behind (stands_at feeders.now said.now lists.old) instruction.now)) }
    ensures left { OnOk result (AreTaken feeders.now (successors_of instruction.now) lists.old lists.new) }
{
    match instruction {
        Instruction::Do { successor, .. } => Ok(take_one(alloc, feeders, said, lists, *successor)),
        Instruction::Call { successor, .. } => {
            Ok(take_one(alloc, feeders, said, lists, *successor))
        }
        Instruction::Branch { taken, other, .. } => {
            take_two(alloc, feeders, said, lists, *taken, *other)
        }
        Instruction::Return { .. } => Ok(Found::Taken(Vec::new(alloc))),
    }
}

/// Whether the equations hold at the entry, if the node is that.
fn begins_right(
    input: &rtl_language::Function,
    output: &ltl::Function,
    n: usize,
    equations: &[Equation],
) -> bool
    ensures { IsTrue result ↔ BeginsRight input.now output.now n equations.now }
{
    n != usize::from(input.entry())
        || hold_at_entry(
            input.parameters().as_slice(),
            output.parameters().as_slice(),
            equations,
        )
}

/// Whether a marked node's row has what its block needs, and may stand at the entry if the node is that.
fn is_enough(
    input: &rtl_language::Function,
    output: &ltl::Function,
    n: usize,
    row: &[Equation],
    needed: &[Equation],
) -> bool
    requires { RiseFrom 0 row.now }
    ensures { IsTrue result ↔ (BeginsRight input.now output.now n row.now × All (Contains row.now) needed.now) }
{
    begins_right(input, output, n, row) && are_among(row, needed)
}

/// Whether the node is marked, as what feeds each node tells.
fn is_marked(input: &rtl_language::Function, feeders: &[Option<u16>], n: usize) -> bool
    requires feeders { AreFeeders input.now.entry input.now.nodes feeders.now }
    requires within { n < length input.now.nodes }
    ensures { IsTrue result ↔ IsMarked input.now.entry input.now.nodes n }
{
    match feeders.get(n) {
        Some(feeder) => feeder.is_none(),
        None => false,
    }
}

/// Makes the list what the block needs before it, nothing where it breaks a rule; says whether it breaks
/// none.
fn told_before(
    alloc: Global,
    instruction: &Instruction,
    block: &Block,
    found: &[Equation],
    out: &mut Vec<Equation>,
) -> Result<bool, NoMemory>
    ensures keeps { IfOk result (λ keeps. IsTrue keeps ↔ KeepsEquations instruction.now block.now found.now) }
    ensures needed { OnOk result (out.new.items ≡ needed instruction.now block.now found.now) }
{
    let keeps = needed_before(alloc, instruction, block, found, out)?;
    if keeps {
        return Ok(true);
    }
    out.clear();
    Ok(false)
}

/// Goes back through a node's block; says whether the node keeps the rules. A node that is not marked
/// is given what its block needs.
fn go_back(
    alloc: Global,
    input: &rtl_language::Function,
    output: &ltl::Function,
    feeders: &[Option<u16>],
    said: &Said<Equation>,
    lists: &mut [Row<Equation>],
    n: usize,
    instruction: &Instruction,
    block: &Block,
) -> Result<bool, NoMemory>
    requires input { IsFunction input.now }
    requires nodes { length output.now.blocks ≡ length input.now.nodes }
    requires feeders { AreFeeders input.now.entry input.now.nodes feeders.now }
    requires instruction { slice_get input.now.nodes n ≡ Some instruction.now }
    requires block { slice_get output.now.blocks n ≡ Some block.now }
    requires lists { length lists.old ≡ length input.now.nodes }
    requires rising { IsMarked input.now.entry input.now.nodes n → RiseFrom 0 (equations_at said.now n) }
    ensures { IfOk result (GoesBack input.now output.now said.now n lists.old lists.new) }
{
    let found = take_behind(alloc, feeders, said, lists, instruction)?;
    let found = equations_in(&found);
    let mut needed = Vec::with_capacity(alloc, found.len().saturating_add(4))?;
    let keeps = told_before(alloc, instruction, block, found, &mut needed)?;
    if !is_marked(input, feeders, n) {
        put_in_order(&mut needed);
        lists[n] = Row::from_vec(needed);
        return Ok(keeps);
    }
    if !keeps {
        return Ok(false);
    }
    Ok(is_enough(input, output, n, said.at(n), needed.as_slice()))
}

/// Finds the lowest node that breaks a rule.
pub(crate) fn lowest_wrong(
    alloc: Global,
    input: &rtl_language::Function,
    output: &ltl::Function,
    feeders: &[Option<u16>],
    rows: &[NodeRow<Equation>],
) -> Result<Option<u16>, NoMemory>
    requires feeders { AreFeeders input.now.entry input.now.nodes feeders.now }
    requires form { HasForm input.now output.now rows.now }
    ensures { IfOk result (TellsLowest
        (IsRightAt input.now output.now (filled input.now output.now rows.now)) (length input.now.nodes)) }
{
    let instructions = input.nodes().as_slice();
    let blocks = output.blocks().as_slice();
    let said = Said::of(alloc, instructions.len(), rows)?;
    let mut lists = empty_lists(alloc, instructions.len())?.into_vec();
    let mut wrong = None;
    let mut n = instructions.len();
    while n > 0 {
        n -= 1;
        let right = go_back(
            alloc,
            input,
            output,
            feeders,
            &said,
            &mut lists,
            n,
            &instructions[n],
            &blocks[n],
        )?;
        if !right {
            wrong = Some(n as u16);
        }
    }
    Ok(wrong)
}
