ghost use Rattle.std.specs.Prelude.{◌≡◌, [], IfOk};
ghost use Rattle.cse_check_rules.specs.Rules.{IsEliminated};

use crate::lists::EquationLists;
use crate::pass::Cse;
use lang_base::NoMemory;
use rtl_passes_facts::{Function, unchanged};
use std::alloc::Global;

/// The input itself, with no rows.
pub fn baseline(alloc: Global, input: &Function) -> Result<(Function, EquationLists), NoMemory>
    ensures output { IfOk result (λ made. made.0 ≡ input.now) }
    ensures equations { IfOk result (λ made. made.1 ≡ []) }
    ensures accepted { IfOk result (λ made. IsEliminated input.now made.0 made.1) }
{
    unchanged::<Cse>(alloc, input)
}
