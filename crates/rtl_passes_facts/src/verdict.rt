//! Whether an output is accepted, and where it is not.

ghost use Rattle.std.specs.Prelude.{◌↔◌, IsTrue, IfOk};
ghost use Rattle.rtl_passes_filled.specs.Accepted.{IsAccepted, TellsWhy};

use crate::entries::Facts;
use crate::nodes::lowest_wrong;
use crate::rules::Rules;
use lang_base::{Fault, NoMemory};
use rtl_passes_marks::{Function, NodeRow, are_rows, feeders_of, has_same_shape};
use std::alloc::Global;

/// What is wrong with the output and the rows, if anything is. Time is linear in nodes, rows and what is filled in; of
/// what is filled in, the lists of those nodes alone take memory that wait for their turn, so along a chain one list.
pub fn why<R: Rules>(
    alloc: Global,
    input: &Function,
    output: &Function,
    rows: &[NodeRow<R::Fact>],
) -> Result<Option<Fault>, NoMemory>
    ensures { IfOk result (TellsWhy R.rules input.now output.now rows.now) }
{
    let feeders = feeders_of(alloc, input)?;
    if !has_same_shape(input, output)
        || !are_rows::<Facts<R>>(input.registers(), input, &feeders, rows)
    {
        return Ok(Some(Fault::Shape));
    }
    let wrong = lowest_wrong::<R>(alloc, input, output, &feeders, rows)?;
    Ok(wrong.map(Fault::Node))
}

/// Whether the output and the rows keep the rules.
pub fn check<R: Rules>(
    alloc: Global,
    input: &Function,
    output: &Function,
    rows: &[NodeRow<R::Fact>],
) -> Result<bool, NoMemory>
    ensures { IfOk result (λ yes. IsTrue yes ↔ IsAccepted R.rules input.now output.now rows.now) }
{
    Ok(why::<R>(alloc, input, output, rows)?.is_none())
}
