ghost use Rattle.std.specs.Prelude.{◌≡◌, [], IfOk};
ghost use Rattle.rtl_passes_filled.specs.Accepted.{IsAccepted};

use crate::rules::Rules;
use lang_base::{Language, NoMemory, Row};
use rtl_passes_marks::{Function, NodeRow, Rtl};
use std::alloc::Global;

/// The input itself, with no facts at marked nodes.
pub fn unchanged<R: Rules>(
    alloc: Global,
    input: &Function,
) -> Result<(Function, Row<NodeRow<R::Fact>>), NoMemory>
    ensures output { IfOk result (λ made. made.0 ≡ input.now) }
    ensures facts { IfOk result (λ made. made.1 ≡ []) }
    ensures accepted { IfOk result (λ made. IsAccepted R.rules input.now made.0 made.1) }
{
    let output = Rtl::copy(alloc, input)?;
    Ok((output, Row::from_vec(Vec::new(alloc))))
}
