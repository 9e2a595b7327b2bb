//! The names of functions: where one is declared again, what `main` is, and the limits (C99 5.1.2.2.1, 6.2.7 and 6.9).

ghost use Rattle.std.specs.Prelude.{◌≡◌, [], OnOk, IfErr};
ghost use Rattle.c_checker_rules.specs.Told.{Tells};
ghost use Rattle.c_checker_rules.specs.Functions as F;
ghost use Rattle.c_checker_declarations.specs.Meant.{may_mean};
ghost use Rattle.c_checker_declarations.specs.Parameters.{int_of};
ghost use Rattle.c_checker_declarations.specs.Sources.{name_faults};

use c_checker_rules::{CheckError, Meaning, Signature};
use c_checker_scopes::Scopes;
use c_checker_terms::{Functions, is_main, is_putchar, is_short, meaning_of};
use c_syntax::{Identifier, IntegerType, ReturnType};

/// The most functions with bodies.
const MOST_FUNCTIONS: usize = 64;

/// Whether two types are the same.
fn same_type(one: IntegerType, other: IntegerType) -> bool
    ensures { result ≡ F.same_type one other }
{
    match (one, other) {
        (IntegerType::Int, IntegerType::Int) => true,
        (IntegerType::Int, IntegerType::Unsigned) => false,
        (IntegerType::Unsigned, IntegerType::Int) => false,
        (IntegerType::Unsigned, IntegerType::Unsigned) => true,
    }
}

/// Whether two rows of types are the same.
fn same_types(one: &[IntegerType], other: &[IntegerType]) -> bool
    ensures { result ≡ F.same_types one.now other.now }
{
    let mut left = one;
    let mut right = other;
    while let [first, behind @ ..] = left {
        let [second, rest @ ..] = right else {
            return false;
        };
        if !same_type(*first, *second) {
            return false;
        }
        left = behind;
        right = rest;
    }
    right.is_empty()
}

/// Whether two functions give back the same.
fn same_result(one: ReturnType, other: ReturnType) -> bool
    ensures { result ≡ F.same_result one other }
{
    match (one, other) {
        (ReturnType::Void, ReturnType::Void) => true,
        (ReturnType::Void, ReturnType::Value(_kind)) => false,
        (ReturnType::Value(_kind), ReturnType::Void) => false,
        (ReturnType::Value(left), ReturnType::Value(right)) => same_type(left, right),
    }
}

/// Whether two functions have the same type.
fn same_signature(one: &Signature, other: &Signature) -> bool
    ensures { result ≡ F.same_signature one.now other.now }
{
    same_result(one.result, other.result)
        && same_types(one.kinds.as_slice(), other.kinds.as_slice())
}

/// Whether a function gives an `int` and takes these.
fn gives_int(signature: &Signature, kinds: &[IntegerType]) -> bool
    ensures { result ≡ F.same_signature signature.now (int_of kinds.now) }
{
    same_result(signature.result, ReturnType::Value(IntegerType::Int))
        && same_types(signature.kinds.as_slice(), kinds)
}

/// Whether a name that means this, if anything, may be declared as a function of this type.
fn may_mean(functions: &Functions, meaning: Option<Meaning>, signature: &Signature) -> bool
    ensures { result ≡ may_mean functions.now.signatures meaning signature.now }
{
    let Some(meaning) = meaning else {
        return true;
    };
    let Meaning::Function(number) = meaning else {
        return false;
    };
    let Some(declared) = functions.signatures.get(number) else {
        return false;
    };
    same_signature(signature, declared)
}

/// Whether a name is new in its file, or names a function of the same type.
#[tactic(auto, using(crate::proofs::Meanings::may_be_meant))]
fn may_be(
    functions: &Functions,
    scope: &Scopes<Meaning>,
    name: &Identifier,
    signature: &Signature,
) -> bool
    ensures { result ≡ F.may_be functions.now.signatures scope.now name.now signature.now }
{
    may_mean(functions, meaning_of(scope, name), signature)
}

/// Whether the body with this number is the only one of its name, which is not `putchar`; any prototype is.
fn is_only_body(functions: &Functions, name: &Identifier, number: Option<usize>) -> bool
    ensures { result ≡ F.is_only_body functions.now.bodies name.now number }
{
    let Some(number) = number else {
        return true;
    };
    if is_putchar(name) {
        return false;
    }
    match functions.bodies.find(name.name.as_slice()) {
        Some(binding) => binding.value == number,
        None => false,
    }
}

/// Whether a function is declared again where it may not be.
fn is_redeclared(
    functions: &Functions,
    scope: &Scopes<Meaning>,
    name: &Identifier,
    signature: &Signature,
    number: Option<usize>,
) -> bool
    ensures { result ≡ F.is_redeclared functions.now scope.now name.now signature.now number }
{
    !may_be(functions, scope, name, signature)
        || !is_only_body(functions, name, number)
        || (is_putchar(name) && !gives_int(signature, &[IntegerType::Int]))
}

/// Whether so many functions with bodies may stand before this one; a prototype is not counted.
fn is_countable(number: Option<usize>) -> bool
    ensures { result ≡ F.is_countable number }
{
    match number {
        Some(number) => number < MOST_FUNCTIONS,
        None => true,
    }
}

/// Whether a function or a prototype may have this name, or the first fault at it. The file's names are those
/// from before it; the number is that of a function with a body, whose name is among the bodies already.
#[tactic(auto, using(c_checker_rules::proofs::Firsts::tells_front, c_checker_rules::proofs::Firsts::tells_behind))]
pub fn check_name(
    functions: &Functions,
    scope: &Scopes<Meaning>,
    name: &Identifier,
    signature: &Signature,
    number: Option<usize>,
) -> Result<(), CheckError>
    ensures ok { OnOk result (name_faults functions.now scope.now name.now signature.now number ≡ []) }
    ensures err { IfErr result (λ e. Tells e (name_faults functions.now scope.now name.now signature.now number)) }
{
    if is_redeclared(functions, scope, name, signature, number) {
        return Err(CheckError::Redeclared(name.offset));
    }
    if is_main(name) && !gives_int(signature, &[]) {
        return Err(CheckError::BadMain(name.offset));
    }
    if !is_countable(number) || !is_short(name) {
        return Err(CheckError::Limit(name.offset));
    }
    Ok(())
}
