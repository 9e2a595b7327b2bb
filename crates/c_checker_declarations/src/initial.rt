//! The expressions that globals begin with (C99 6.6 and 6.7.8).

ghost use Rattle.std.specs.Prelude.{◌≡◌, ◌≢◌, [], map, Some, IfOk, IfErr};
ghost use Rattle.c_syntax.specs.Views.{initial_tree};
ghost use Rattle.c_checker_rules.specs.Told.{Tells};
ghost use Rattle.c_checker_rules.specs.Globals as G;
ghost use Rattle.c_checker_rules.specs.declared.errors.CheckError.TheVariants as CheckError;
ghost use Rattle.c_checker_declarations.specs.Sources.{initials_in};

use c_checker_rules::{CheckError, Meaning};
use c_checker_scopes::Scopes;
use c_checker_terms::{check_expression, constant_value, has_name};
use c_syntax::{Initial, Initializer};
use std::alloc::Global;

/// Whether a fault is that of a name at this offset, which is not declared.
fn is_undeclared_at(at: usize, fault: CheckError) -> bool
    ensures { result ≡ G.is_undeclared_at at fault }
{
    match fault {
        CheckError::Undeclared(place) => place == at,
        _ => false,
    }
}

/// What is told of an expression with this fault, which begins at this offset.
fn told(at: usize, fault: CheckError) -> CheckError
    ensures kept { result ≢ CheckError.NoMemory → fault ≢ CheckError.NoMemory }
    ensures told { result ≢ CheckError.NoMemory → result ≡ G.not_constant at (Some fault) }
{
    if matches!(fault, CheckError::NoMemory) || is_undeclared_at(at, fault) {
        fault
    } else {
        CheckError::NotConstant(at)
    }
}

/// The word that an initial expression is worth.
#[tactic(auto, using(crate::proofs::Constants::constant_told, crate::proofs::Constants::fault_told, crate::proofs::Constants::name_told, crate::proofs::Constants::wrong_told))]
fn check_initial(
    alloc: Global,
    scope: &Scopes<Meaning>,
    initial: &Initial,
) -> Result<u32, CheckError>
    ensures ok { IfOk result (λ w. G.initial_faults scope.now (initial_tree initial.now) ≡ []) }
    ensures word { IfOk result (λ w. w ≡ G.or_zero (G.constant_of scope.now (initial_tree initial.now).value)) }
    ensures err { IfErr result (λ e. Tells e (G.initial_faults scope.now (initial_tree initial.now))) }
{
    match check_expression(alloc, scope, &initial.value) {
        Err(fault) => Err(told(initial.offset, fault)),
        Ok(typed) => {
            if has_name(&initial.value) {
                return Err(CheckError::NotConstant(initial.offset));
            }
            match constant_value(&typed.term) {
                Some(word) => Ok(word),
                None => Err(CheckError::NotConstant(initial.offset)),
            }
        }
    }
}

/// The words of initial expressions.
#[tactic(auto, using(c_checker_rules::proofs::Firsts::tells_front, c_checker_rules::proofs::Firsts::tells_behind))]
fn check_listed(
    alloc: Global,
    scope: &Scopes<Meaning>,
    initials: &[Initial],
) -> Result<Vec<u32>, CheckError>
    ensures ok { IfOk result (λ ws. G.initials_faults scope.now (map initial_tree initials.now) ≡ []) }
    ensures words { IfOk result (λ ws. ws.items ≡ G.initial_words scope.now (map initial_tree initials.now)) }
    ensures err { IfErr result (λ e. Tells e (G.initials_faults scope.now (map initial_tree initials.now))) }
{
    let mut words = Vec::new(alloc);
    for initial in initials {
        words.push(check_initial(alloc, scope, initial)?)?;
    }
    Ok(words)
}

/// The words that a global begins with.
pub(crate) fn check_initializer(
    alloc: Global,
    scope: &Scopes<Meaning>,
    initializer: &Option<Initializer>,
) -> Result<Vec<u32>, CheckError>
    ensures ok { IfOk result (λ ws. G.initials_faults scope.now (initials_in initializer.now) ≡ []) }
    ensures words { IfOk result (λ ws. ws.items ≡ G.initial_words scope.now (initials_in initializer.now)) }
    ensures err { IfErr result (λ e. Tells e (G.initials_faults scope.now (initials_in initializer.now))) }
{
    match initializer {
        None => Ok(Vec::new(alloc)),
        Some(Initializer::Plain(initial)) => {
            let word = check_initial(alloc, scope, initial)?;
            let mut words = Vec::new(alloc);
            words.push(word)?;
            Ok(words)
        }
        Some(Initializer::Braced(initials)) => check_listed(alloc, scope, initials.as_slice()),
    }
}
