ghost use Rattle.std.specs.Prelude.{◌≡◌, [], IfOk};
ghost use Rattle.constprop_check_rules.specs.Rules.{IsPropagated};

use crate::lists::FactLists;
use crate::pass::ConstProp;
use lang_base::NoMemory;
use rtl_passes_facts::{Function, unchanged};
use std::alloc::Global;

/// The input itself, with no rows.
pub fn baseline(alloc: Global, input: &Function) -> Result<(Function, FactLists), NoMemory>
    ensures output { IfOk result (λ made. made.0 ≡ input.now) }
    ensures facts { IfOk result (λ made. made.1 ≡ []) }
    ensures accepted { IfOk result (λ made. IsPropagated input.now made.0 made.1) }
{
    unchanged::<ConstProp>(alloc, input)
}
