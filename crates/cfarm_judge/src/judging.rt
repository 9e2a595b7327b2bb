//! Whether a written offer is such as its pass accepts.

ghost use Rattle.std.specs.Prelude.{◌≡◌, OnOk, IfOk, IfErr};
ghost use Rattle.lang_base.specs.declared.fault.Fault.{Fault};
ghost use Rattle.cfarm_judge.specs.Passes.{IsNotPassedAt, IsPassedAt};
ghost use Rattle.cfarm_judge.specs.Judged.{IsNotJudged};
ghost use Rattle.cfarm_judge.specs.Passing.{IsNotPassedBy, IsPassedBy};

use crate::error::{JudgeError, told};
use crate::passes::pass_of;
use bundle_offers::{Alloc, PassNumber, PassReasons, Reasons, stands};
use constprop_check::ConstProp;
use cse_check::Cse;
use lang_base::Pass;
use linearize_check::Linearize;
use offers::Offer;
use rtl_language::Function;
use std::alloc::Global;

/// Whether all of the bytes are an offer that the pass accepts, whatever its input.
fn passed<P: Pass, S: Reasons<P>>(
    alloc: Global,
    at: PassNumber,
    bytes: &[u8],
) -> Result<(), JudgeError>
    ensures passed { OnOk result (IsPassedBy P.In.Language P.Out.Language P.Pass bytes.now) }
    ensures refused { IfErr result (IsNotPassedBy P.In.Language P.Out.Language P.Pass S.tells at bytes.now) }
{
    let parts = match Offer::<P>::parts(alloc, bytes) {
        Ok(parts) => parts,
        Err(fault) => return Err(JudgeError::Form(fault)),
    };
    match stands::<P, S>(alloc, at, &parts.input, &parts) {
        Ok(()) => Ok(()),
        Err(fault) => Err(told(fault)),
    }
}

/// The same of pass 1, where the input has to be the function.
fn passed_first(alloc: Global, function: &Function, bytes: &[u8]) -> Result<(), JudgeError>
    ensures passed { OnOk result (IsPassedAt function.now bytes.now PassNumber.First) }
    ensures refused { IfErr result (IsNotPassedAt function.now bytes.now PassNumber.First) }
{
    let parts = match Offer::<ConstProp>::parts(alloc, bytes) {
        Ok(parts) => parts,
        Err(fault) => return Err(JudgeError::Form(fault)),
    };
    match stands::<ConstProp, PassReasons>(alloc, PassNumber::First, function, &parts) {
        Ok(()) => Ok(()),
        Err(fault) => Err(told(fault)),
    }
}

/// Whether all of the bytes are an offer that the pass of this number accepts, and of the function where it is the first.
fn passed_at(
    alloc: Global,
    function: &Function,
    pass: PassNumber,
    bytes: &[u8],
) -> Result<(), JudgeError>
    ensures passed { OnOk result (IsPassedAt function.now bytes.now pass) }
    ensures refused { IfErr result (IsNotPassedAt function.now bytes.now pass) }
{
    match pass {
        PassNumber::First => passed_first(alloc, function, bytes),
        PassNumber::Second => passed::<Cse, PassReasons>(alloc, PassNumber::Second, bytes),
        PassNumber::Third => passed::<Alloc, PassReasons>(alloc, PassNumber::Third, bytes),
        PassNumber::Fourth => passed::<Linearize, PassReasons>(alloc, PassNumber::Fourth, bytes),
    }
}

/// The pass that accepts the offer, which the first byte tells.
pub(crate) fn judged(
    alloc: Global,
    function: &Function,
    bytes: &[u8],
) -> Result<PassNumber, JudgeError>
    ensures judged { IfOk result (IsPassedAt function.now bytes.now) }
    ensures refused { IfErr result (IsNotJudged function.now bytes.now) }
{
    let pass = match pass_of(bytes) {
        Ok(pass) => pass,
        Err(fault) => return Err(JudgeError::Form(fault)),
    };
    match passed_at(alloc, function, pass, bytes) {
        Ok(()) => Ok(pass),
        Err(fault) => Err(fault),
    }
}
