ghost use Rattle.std.specs.Prelude.{◌≡◌, ◌≢◌, ◌≤◌, IfOk, IfErr};
ghost use Rattle.alloc_check_rules.specs.Rules.{baseline_limit, IsTooLarge};
ghost use Rattle.alloc_check_verdict.specs.Allocated.{IsAllocated};
ghost use Rattle.alloc_check.specs.Baseline.{AreLiveRows};
ghost use Rattle.alloc_check.specs.Slots.{function_in};

use crate::function::function_in;
use crate::lists::own_rows;
use alloc_check_live::live_registers;
use alloc_check_verdict::EquationLists;
use lang_base::{NoMemory, PassError};
use ltl::beside;
use rtl_passes_marks::feeders_of;
use std::alloc::Global;

/// The equations of the registers that are live, at marked nodes.
fn live_equations(alloc: Global, input: &rtl_language::Function) -> Result<EquationLists, NoMemory>
    requires { input.now.registers ≤ baseline_limit }
    ensures live { IfOk result (λ rows. AreLiveRows input.now rows) }
    ensures accepted { IfOk result (λ rows. IsAllocated input.now (function_in input.now) rows) }
{
    let live = live_registers(alloc, input)?;
    let feeders = feeders_of(alloc, input)?;
    let _nodes = input.nodes();
    let rows = own_rows(alloc, feeders.as_slice(), live.as_slice())?;
    Ok(rows)
}

/// The registers in slots of their own, with the equations of those that are live at marked nodes.
/// Refuses more than 2,048 registers.
pub fn baseline(
    alloc: Global,
    input: &rtl_language::Function,
) -> Result<(ltl::Function, EquationLists), PassError>
    ensures output { IfOk result (λ made. made.0 ≡ function_in input.now) }
    ensures live { IfOk result (λ made. AreLiveRows input.now made.1) }
    ensures accepted { IfOk result (λ made. IsAllocated input.now made.0 made.1) }
    ensures refused { IfErr result (λ e. e ≢ PassError.NoMemory → IsTooLarge input.now) }
{
    if input.registers() > 2048 {
        return Err(PassError::TooManyRegisters);
    }
    let output = function_in(alloc, input)?;
    let equations = live_equations(alloc, input);
    Ok(beside(output, equations)?)
}
