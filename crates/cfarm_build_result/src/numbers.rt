//! What a node has learned, by functions.

ghost use Rattle.std.specs.Prelude.{◌≡◌, IsSome, is_some, count_by, length, IfOk};
ghost use Rattle.std.specs.String.{string_bytes};
ghost use Rattle.c_checker_rules.specs.Checked.{program_tree};
ghost use Rattle.cminor_program_ranges.specs.Names.{HaveNames};
ghost use Rattle.farm_nodes_link.specs.Learned.{learned_by, learned_four, IsUndecided};
ghost use Rattle.cfarm_build_result.specs.Told.{AreTold, TellsRooms, function_names};

use crate::function::FunctionRooms;
use c_checker_rules::CProgram;
use farm_nodes_link::{NumberedSeat, has_learned_function};
use farm_nodes_source::name_of;
use lang_base::NoMemory;
use rooms_hall::Naming;
use std::alloc::Global;

/// How many functions are linked: of each of them all four offers are learned, and seen.
pub fn linked_functions<H: Naming>(seats: &[NumberedSeat<H>]) -> usize
    ensures { result ≡ count_by is_some (learned_by seats.now) }
{
    let mut linked = 0;
    for function in 0..seats.len() {
        linked += usize::from(has_learned_function(&seats[function]));
    }
    linked
}

/// What is told of a function of this name: the four numbers, where all are learned.
fn told<H: Naming>(name: String, numbered: &NumberedSeat<H>) -> FunctionRooms
    requires { IsSome (learned_four numbered.now) }
    ensures { TellsRooms (string_bytes name) numbered.now result }
{
    let Some(first) = numbered.seat.first.learned() else {
        unreachable!();
    };
    let Some(second) = numbered.seat.second.learned() else {
        unreachable!();
    };
    let Some(third) = numbered.seat.third.learned() else {
        unreachable!();
    };
    let Some(fourth) = numbered.seat.fourth.learned() else {
        unreachable!();
    };
    FunctionRooms {
        name,
        first,
        second,
        third,
        fourth,
    }
}

/// All functions with what the node has learned, which links them all.
pub(crate) fn numbers_of<H: Naming>(
    alloc: Global,
    program: &CProgram,
    seats: &[NumberedSeat<H>],
) -> Result<Vec<FunctionRooms>, NoMemory>
    requires names { HaveNames (program_tree program.now) }
    requires count { length seats.now ≡ length program.now.functions }
    requires decided { IsUndecided (learned_by seats.now) → ⊥ }
    ensures { IfOk result (λ told. AreTold (function_names program.now) seats.now told.items) }
{
    let mut functions = Vec::with_capacity(alloc, seats.len())?;
    for function in 0..seats.len() {
        let name = name_of(alloc, program, function)?;
        functions.push(told(name, &seats[function]))?;
    }
    Ok(functions)
}
