//! Whether an output is accepted, and where it is not.

ghost use Rattle.std.specs.Prelude.{◌↔◌, IsTrue, IfOk};
ghost use Rattle.rtl_passes_facts.specs.Accepted.{TellsWhy};
ghost use Rattle.cse_check_rules.specs.Rules.{elimination, IsEliminated};

use crate::lists::EquationLists;
use crate::pass::Cse;
use lang_base::{Fault, NoMemory};
use rtl_passes_facts::Function;
use std::alloc::Global;

/// What is wrong with the output and the equations, if anything is. `Shape`: the parameters, registers, entries or
/// numbers of nodes differ, or a row is for a node that is not marked, is empty, or rows or a row's equations are out of
/// order or range.
pub fn why(
    alloc: Global,
    input: &Function,
    output: &Function,
    equations: &EquationLists,
) -> Result<Option<Fault>, NoMemory>
    ensures { IfOk result (TellsWhy elimination input.now output.now equations.now) }
{
    rtl_passes_facts::why::<Cse>(alloc, input, output, equations.as_slice())
}

/// Whether the output and the equations keep the rules.
pub fn check(
    alloc: Global,
    input: &Function,
    output: &Function,
    equations: &EquationLists,
) -> Result<bool, NoMemory>
    ensures { IfOk result (λ yes. IsTrue yes ↔ IsEliminated input.now output.now equations.now) }
{
    rtl_passes_facts::check::<Cse>(alloc, input, output, equations.as_slice())
}
