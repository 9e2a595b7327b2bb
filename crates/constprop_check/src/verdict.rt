//! Whether an output is accepted, and where it is not.

ghost use Rattle.std.specs.Prelude.{◌↔◌, IsTrue, IfOk};
ghost use Rattle.rtl_passes_facts.specs.Accepted.{TellsWhy};
ghost use Rattle.constprop_check_rules.specs.Rules.{propagation, IsPropagated};

use crate::lists::FactLists;
use crate::pass::ConstProp;
use lang_base::{Fault, NoMemory};
use rtl_passes_facts::Function;
use std::alloc::Global;

/// What is wrong with the output and the facts, if anything is. `Shape`: the parameters, registers, entries or
/// numbers of nodes differ, or a row is for a node that is not marked, is empty, or rows or a row's facts are out of order
/// or range.
pub fn why(
    alloc: Global,
    input: &Function,
    output: &Function,
    facts: &FactLists,
) -> Result<Option<Fault>, NoMemory>
    ensures { IfOk result (TellsWhy propagation input.now output.now facts.now) }
{
    rtl_passes_facts::why::<ConstProp>(alloc, input, output, facts.as_slice())
}

/// Whether the output and the facts keep the rules.
pub fn check(
    alloc: Global,
    input: &Function,
    output: &Function,
    facts: &FactLists,
) -> Result<bool, NoMemory>
    ensures { IfOk result (λ yes. IsTrue yes ↔ IsPropagated input.now output.now facts.now) }
{
    rtl_passes_facts::check::<ConstProp>(alloc, input, output, facts.as_slice())
}
