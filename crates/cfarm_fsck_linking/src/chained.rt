//! The four passes.

ghost use Rattle.std.specs.Prelude.{◌↔◌, IfOk, IsTrue};
ghost use Rattle.cfarm_fsck_linking.specs.Chained.{AreChained, texts_of};

use crate::step::behind;
use crate::texts::Texts;
use alloc_check::Alloc;
use constprop_check::ConstProp;
use cse_check::Cse;
use lang_base::NoMemory;
use linearize_check::Linearize;
use rtl_language::Function;
use std::alloc::Global;

/// Whether the texts are of offers that go on one from the other, and the first from the function, as far as they are known. The time is linear
/// in them.
#[tactic(auto, using(crate::proofs::FourPasses::no_first, crate::proofs::FourPasses::no_second, crate::proofs::FourPasses::no_third, crate::proofs::FourPasses::no_fourth, crate::proofs::FourPasses::all_four))]
pub fn are_chained(alloc: Global, function: &Function, texts: Texts<'_>) -> Result<bool, NoMemory>
    ensures { IfOk result (λ yes. IsTrue yes ↔ AreChained function.now (texts_of texts.entry)) }
{
    let Some(first) = behind::<ConstProp>(alloc, Some(function), texts.first)? else {
        return Ok(false);
    };
    let Some(second) = behind::<Cse>(alloc, first.as_ref(), texts.second)? else {
        return Ok(false);
    };
    let Some(third) = behind::<Alloc>(alloc, second.as_ref(), texts.third)? else {
        return Ok(false);
    };
    match behind::<Linearize>(alloc, third.as_ref(), texts.fourth)? {
        Some(_fourth) => Ok(true),
        None => Ok(false),
    }
}
