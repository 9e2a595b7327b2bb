//! Parameters (C99 6.7.5.3 and 6.9.1), which share the scope of the body's outermost block.

ghost use Rattle.std.specs.Prelude.{◌≡◌, [], map, OnOk, IfErr};
ghost use Rattle.c_checker_rules.specs.Told.{Tells};
ghost use Rattle.c_checker_rules.specs.Functions as F;
ghost use Rattle.c_checker_declarations.specs.Parameters.{named};

use c_checker_bodies::Here;
use c_checker_rules::{CheckError, Meaning};
use c_checker_terms::{is_new, is_short};
use c_syntax::{Identifier, IntegerType, OpenParameter, Parameter};

/// The most parameters of a function.
const MOST_PARAMETERS: usize = 16;

/// How deep the scope of a function's outermost block is.
const OUTERMOST: u32 = 1;

/// Whether a parameter with this name may be declared here.
fn check_named(here: &Here, kind: IntegerType, name: &Identifier) -> Result<(), CheckError>
    ensures ok { OnOk result (F.parameter_faults here.now (named kind name.now) ≡ []) }
    ensures err { IfErr result (λ e. Tells e (F.parameter_faults here.now (named kind name.now))) }
{
    if !is_new(OUTERMOST, &here.scope, name) {
        return Err(CheckError::Redeclared(name.offset));
    }
    if here.locals >= MOST_PARAMETERS || !is_short(name) {
        return Err(CheckError::Limit(name.offset));
    }
    Ok(())
}

/// Declares a parameter with this name, which takes the next number.
fn declare_named(here: &mut Here, kind: IntegerType, name: &Identifier) -> Result<(), CheckError>
    ensures ok { OnOk result (F.parameter_faults here.old (named kind name.now) ≡ []) }
    ensures here { OnOk result (here.new ≡ F.with_parameter here.old (named kind name.now)) }
    ensures err { IfErr result (λ e. Tells e (F.parameter_faults here.old (named kind name.now))) }
{
    check_named(here, kind, name)?;
    let meaning = Meaning::Local(here.locals, kind);
    here.scope.bind(name.name.as_slice(), OUTERMOST, meaning)?;
    here.locals += 1;
    Ok(())
}

/// Declares a parameter of a prototype. One without a name takes a number all the same.
fn declare_open(here: &mut Here, parameter: &OpenParameter) -> Result<(), CheckError>
    ensures ok { OnOk result (F.parameter_faults here.old parameter.now ≡ []) }
    ensures here { OnOk result (here.new ≡ F.with_parameter here.old parameter.now) }
    ensures err { IfErr result (λ e. Tells e (F.parameter_faults here.old parameter.now)) }
{
    if let Some(name) = &parameter.name {
        return declare_named(here, parameter.kind, name);
    }
    if here.locals >= MOST_PARAMETERS {
        return Err(CheckError::Limit(parameter.offset));
    }
    here.locals += 1;
    Ok(())
}

/// Declares the parameters of a function with a body, or tells the first fault in them.
#[tactic(auto, using(c_checker_rules::proofs::Firsts::tells_front, c_checker_rules::proofs::Firsts::tells_behind))]
pub fn check_parameters(here: &mut Here, parameters: &[Parameter]) -> Result<(), CheckError>
    ensures ok { OnOk result (F.parameters_faults here.old (map F.opened parameters.now) ≡ []) }
    ensures here { OnOk result (here.new ≡ F.with_parameters here.old (map F.opened parameters.now)) }
    ensures err { IfErr result (λ e. Tells e (F.parameters_faults here.old (map F.opened parameters.now))) }
{
    let mut rest = parameters;
    while let [parameter, behind @ ..] = rest {
        declare_named(here, parameter.kind, &parameter.name)?;
        rest = behind;
    }
    Ok(())
}

/// Declares the parameters of a prototype, or tells the first fault in them.
#[tactic(auto, using(c_checker_rules::proofs::Firsts::tells_front, c_checker_rules::proofs::Firsts::tells_behind))]
pub fn check_open_parameters(
    here: &mut Here,
    parameters: &[OpenParameter],
) -> Result<(), CheckError>
    ensures ok { OnOk result (F.parameters_faults here.old parameters.now ≡ []) }
    ensures here { OnOk result (here.new ≡ F.with_parameters here.old parameters.now) }
    ensures err { IfErr result (λ e. Tells e (F.parameters_faults here.old parameters.now)) }
{
    let mut rest = parameters;
    while let [parameter, behind @ ..] = rest {
        declare_open(here, parameter)?;
        rest = behind;
    }
    Ok(())
}
