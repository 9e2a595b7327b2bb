//! Calls (C99 6.5.2.2).

ghost use Rattle.std.specs.Prelude.{◌≡◌, [], map, IfOk, IfErr, OnOk};
ghost use Rattle.std.specs.Option.{option_map};
ghost use Rattle.c_checker_scopes.specs.Bound.{found};
ghost use Rattle.c_syntax.specs.Views.{expression_tree, call_tree, value_tree};
ghost use Rattle.c_program.specs.Trees as P;
ghost use Rattle.c_program.specs.Views.{term_tree, given_tree};
ghost use Rattle.c_checker_rules.specs.Told.{Tells};
ghost use Rattle.c_checker_rules.specs.Calls as C;
ghost use Rattle.c_checker_terms.specs.Sources.{named_faults, terms_of};

use crate::expressions::check_expression;
use crate::functions::Functions;
use crate::names::meaning_of;
use c_checker_rules::{CheckError, Meaning};
use c_checker_scopes::Scopes;
use c_program::{Called, Term, Value};
use c_syntax::{Call, Expression, Identifier, ReturnType};
use lang_base::Row;
use lang_helpers::ok;
use std::alloc::Global;

/// Whether a name is `putchar` (C99 7.19.7.9).
pub fn is_putchar(name: &Identifier) -> bool
    ensures { result ≡ C.is_putchar name.now.name }
{
    name.name.as_slice() == b"putchar".as_slice()
}

/// The number of the function with this name, if it has a body.
fn body_number(functions: &Functions, name: &Identifier) -> Option<usize>
    ensures { result ≡ option_map (λ b. b.value) (found name.now.name functions.now.bodies) }
{
    let binding = functions.bodies.find(name.name.as_slice())?;
    Some(binding.value)
}

/// Whether a call of a function, whose value is wanted or dropped, suits its declaration.
fn check_callee(
    functions: &Functions,
    scope: &Scopes<Meaning>,
    wanted: bool,
    callee: &Identifier,
    arguments: usize,
) -> Result<(), CheckError>
    ensures ok { OnOk result (named_faults functions.now scope.now wanted callee.now arguments ≡ []) }
    ensures err { IfErr result (λ e. Tells e (named_faults functions.now scope.now wanted callee.now arguments)) }
{
    let at = callee.offset;
    let Some(Meaning::Function(number)) = meaning_of(scope, callee) else {
        return Err(CheckError::Undeclared(at));
    };
    let Some(signature) = functions.signatures.get(number) else {
        return Err(CheckError::Undeclared(at));
    };
    if arguments != signature.kinds.len() {
        return Err(CheckError::WrongArity(at));
    }
    if wanted && matches!(signature.result, ReturnType::Void) {
        return Err(CheckError::VoidValue(at));
    }
    if !is_putchar(callee) && body_number(functions, callee).is_none() {
        return Err(CheckError::NoBody(at));
    }
    Ok(())
}

/// The terms of a call's arguments.
fn check_arguments(
    alloc: Global,
    scope: &Scopes<Meaning>,
    arguments: &[Expression],
) -> Result<Vec<Term>, CheckError>
    ensures ok { IfOk result (λ ts. C.arguments_faults scope.now (map expression_tree arguments.now) ≡ []) }
    ensures terms { IfOk result (λ ts. map term_tree ts.items ≡ terms_of scope.now arguments.now) }
    ensures err { IfErr result (λ e. Tells e (C.arguments_faults scope.now (map expression_tree arguments.now))) }
{
    let mut terms = Vec::new(alloc);
    let mut rest = arguments;
    while let [argument, behind @ ..] = rest {
        let typed = ok!(check_expression(alloc, scope, argument));
        terms.push(typed.term)?;
        rest = behind;
    }
    Ok(terms)
}

/// What a call of `putchar` gives: the byte of its first argument.
fn put(arguments: Vec<Term>) -> Value
    ensures { given_tree result ≡ P.Put (C.first_of (map term_tree arguments.items)) }
{
    match arguments.into_iter().next() {
        Some(term) => Value::Put(term),
        None => Value::Put(Term::Constant(0)),
    }
}

/// What a call gives, whose value is wanted or dropped; or the first fault in it.
pub fn check_call(
    alloc: Global,
    functions: &Functions,
    scope: &Scopes<Meaning>,
    wanted: bool,
    call: &Call,
) -> Result<Value, CheckError>
    ensures ok { IfOk result (λ v. C.call_faults functions.now scope.now wanted (call_tree call.now) ≡ []) }
    ensures given { IfOk result (λ v. given_tree v ≡ C.call_given functions.now scope.now (call_tree call.now)) }
    ensures err { IfErr result (λ e. Tells e (C.call_faults functions.now scope.now wanted (call_tree call.now))) }
{
    let arguments = call.arguments.as_slice();
    ok!(check_callee(functions, scope, wanted, &call.callee, arguments.len(),));
    let terms = ok!(check_arguments(alloc, scope, arguments));
    if is_putchar(&call.callee) {
        return Ok(put(terms));
    }
    let function = body_number(functions, &call.callee).unwrap_or(0);
    Ok(Value::Call(Called {
        function,
        arguments: Row::from_vec(terms),
    }))
}

/// What the right side of an assignment, an initializer or a `return` gives; or the first fault in it.
pub fn check_value(
    alloc: Global,
    functions: &Functions,
    scope: &Scopes<Meaning>,
    value: &c_syntax::Value,
) -> Result<Value, CheckError>
    ensures ok { IfOk result (λ v. C.value_faults functions.now scope.now (value_tree value.now) ≡ []) }
    ensures given { IfOk result (λ v. given_tree v ≡ C.value_given functions.now scope.now (value_tree value.now)) }
    ensures err { IfErr result (λ e. Tells e (C.value_faults functions.now scope.now (value_tree value.now))) }
{
    match value {
        c_syntax::Value::Expression(expression) => {
            let typed = ok!(check_expression(alloc, scope, expression));
            Ok(Value::Term(typed.term))
        }
        c_syntax::Value::Call(call) => check_call(alloc, functions, scope, true, call),
    }
}
