//! The types of functions (C99 6.7.5.3).

ghost use Rattle.std.specs.Prelude.{◌≡◌, map, IfOk};
ghost use Rattle.c_checker_rules.specs.Functions as F;

use c_checker_rules::Signature;
use c_syntax::{OpenParameter, Parameter, ReturnType};
use lang_base::{NoMemory, Row};
use std::alloc::Global;

/// The type of a function with a body.
pub fn signature_of(
    alloc: Global,
    gives: ReturnType,
    parameters: &[Parameter],
) -> Result<Signature, NoMemory>
    ensures { IfOk result (λ s. s ≡ F.signature_of gives (map F.opened parameters.now)) }
{
    let mut kinds = Vec::new(alloc);
    let mut rest = parameters;
    while let [parameter, behind @ ..] = rest {
        kinds.push(parameter.kind)?;
        rest = behind;
    }
    Ok(Signature {
        result: gives,
        kinds: Row::from_vec(kinds),
    })
}

/// The type of a function that a prototype declares.
pub fn prototype_signature(
    alloc: Global,
    gives: ReturnType,
    parameters: &[OpenParameter],
) -> Result<Signature, NoMemory>
    ensures { IfOk result (λ s. s ≡ F.signature_of gives parameters.now) }
{
    let mut kinds = Vec::new(alloc);
    let mut rest = parameters;
    while let [parameter, behind @ ..] = rest {
        kinds.push(parameter.kind)?;
        rest = behind;
    }
    Ok(Signature {
        result: gives,
        kinds: Row::from_vec(kinds),
    })
}
