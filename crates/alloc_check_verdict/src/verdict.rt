//! Whether an output is accepted, and where it is not.

ghost use Rattle.std.specs.Prelude.{◌↔◌, IsTrue, IfOk};
ghost use Rattle.alloc_check_proof.specs.Allocated.{IsAllocated};
ghost use Rattle.alloc_check_verdict.specs.Right.{TellsWhy};

use crate::rows::{EquationLists, has_form};
use crate::walk::lowest_wrong;
use lang_base::{Fault, NoMemory};
use rtl_passes_marks::feeders_of;
use std::alloc::Global;

/// What is wrong with the output and the rows, if anything is. `Shape`: the entries, or the numbers of parameters or of
/// nodes, differ, or the rows are not for marked nodes alone, by rising nodes, each with equations in order.
pub fn why(
    alloc: Global,
    input: &rtl_language::Function,
    output: &ltl::Function,
    equations: &EquationLists,
) -> Result<Option<Fault>, NoMemory>
    ensures { IfOk result (TellsWhy input.now output.now equations.now) }
{
    let rows = equations.as_slice();
    let feeders = feeders_of(alloc, input)?;
    let _blocks = output.blocks();
    if !has_form(input, output, feeders.as_slice(), rows) {
        return Ok(Some(Fault::Shape));
    }
    Ok(lowest_wrong(alloc, input, output, feeders.as_slice(), rows)?.map(Fault::Node))
}

/// Whether the output and the rows keep the rules.
pub fn check(
    alloc: Global,
    input: &rtl_language::Function,
    output: &ltl::Function,
    equations: &EquationLists,
) -> Result<bool, NoMemory>
    ensures { IfOk result (λ yes. IsTrue yes ↔ IsAllocated input.now output.now equations.now) }
{
    Ok(why(alloc, input, output, equations)?.is_none())
}
