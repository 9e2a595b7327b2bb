//! Which tokens stand behind those of a declaration.

ghost use Rattle.std.specs.Prelude.{◌≡◌, map};
ghost use Rattle.c_syntax.specs.Views.{declaration_tree, function_tree, initializer_tree, initial_tree, optional_tree};
ghost use Rattle.c_faults_tokens.specs.Declarations.{behind_result, behind_others, behind_parameters, behind_name, behind_more_open, behind_open};
ghost use Rattle.c_faults_tokens.specs.Declarations.{behind_more_initials, behind_initials, behind_initializer, behind_size, body_tokens, behind_declaration};

use crate::behind::{behind_expression, behind_type, next};
use crate::statements::behind_statements;
use c_syntax::{
    Constant, Declaration, Function, Identifier, Initial, Initializer, OpenParameter, Parameter,
    ReturnType, Token,
};

fn behind_result(returned: ReturnType, tokens: &[Token]) -> &[Token]
    ensures { result.now ≡ behind_result returned tokens.now }
{
    match returned {
        ReturnType::Void => next(tokens),
        ReturnType::Value(kind) => behind_type(kind, tokens),
    }
}

/// The tokens behind parameters, each behind a comma.
fn behind_others<'a>(parameters: &[Parameter], tokens: &'a [Token]) -> &'a [Token]
    ensures { result.now ≡ behind_others parameters.now tokens.now }
{
    let mut left = parameters;
    let mut rest = tokens;
    while let [first, more @ ..] = left {
        rest = next(behind_type(first.kind, next(rest)));
        left = more;
    }
    rest
}

fn behind_parameters<'a>(parameters: &[Parameter], tokens: &'a [Token]) -> &'a [Token]
    ensures { result.now ≡ behind_parameters parameters.now tokens.now }
{
    match parameters {
        [first, more @ ..] => behind_others(more, next(behind_type(first.kind, tokens))),
        [] => next(tokens),
    }
}

fn behind_name<'a>(name: &Option<Identifier>, tokens: &'a [Token]) -> &'a [Token]
    ensures { result.now ≡ behind_name name.now tokens.now }
{
    match name {
        None => tokens,
        Some(_) => next(tokens),
    }
}

/// The tokens behind parameters that may have no name, each behind a comma.
fn behind_more_open<'a>(parameters: &[OpenParameter], tokens: &'a [Token]) -> &'a [Token]
    ensures { result.now ≡ behind_more_open parameters.now tokens.now }
{
    let mut left = parameters;
    let mut rest = tokens;
    while let [first, more @ ..] = left {
        rest = behind_name(&first.name, behind_type(first.kind, next(rest)));
        left = more;
    }
    rest
}

fn behind_open<'a>(parameters: &[OpenParameter], tokens: &'a [Token]) -> &'a [Token]
    ensures { result.now ≡ behind_open parameters.now tokens.now }
{
    match parameters {
        [first, more @ ..] => {
            behind_more_open(
                more,
                behind_name(&first.name, behind_type(first.kind, tokens)),
            )
        }
        [] => next(tokens),
    }
}

/// The tokens behind initial values, each behind a comma.
fn behind_more_initials<'a>(initials: &[Initial], tokens: &'a [Token]) -> &'a [Token]
    ensures { result.now ≡ behind_more_initials (map initial_tree initials.now) tokens.now }
{
    let mut left = initials;
    let mut rest = tokens;
    while let [first, more @ ..] = left {
        rest = behind_expression(&first.value, next(rest));
        left = more;
    }
    rest
}

fn behind_initials<'a>(initials: &[Initial], tokens: &'a [Token]) -> &'a [Token]
    ensures { result.now ≡ behind_initials (map initial_tree initials.now) tokens.now }
{
    match initials {
        [first, more @ ..] => behind_more_initials(more, behind_expression(&first.value, tokens)),
        [] => tokens,
    }
}

fn behind_initializer<'a>(initializer: &Option<Initializer>, tokens: &'a [Token]) -> &'a [Token]
    ensures { result.now ≡ behind_initializer (optional_tree initializer_tree initializer.now) tokens.now }
{
    match initializer {
        None => tokens,
        Some(Initializer::Plain(initial)) => behind_expression(&initial.value, next(tokens)),
        Some(Initializer::Braced(initials)) => {
            next(behind_initials(initials.as_slice(), next(next(tokens))))
        }
    }
}

fn behind_size<'a>(size: &Option<Constant>, tokens: &'a [Token]) -> &'a [Token]
    ensures { result.now ≡ behind_size size.now tokens.now }
{
    match size {
        None => tokens,
        Some(_) => next(next(next(tokens))),
    }
}

/// The tokens of a function's body, behind its brace.
pub fn body_tokens<'a>(function: &Function, tokens: &'a [Token]) -> &'a [Token]
    ensures { result.now ≡ body_tokens (function_tree function.now) tokens.now }
{
    let parameters = next(next(behind_result(function.result, tokens)));
    next(next(behind_parameters(function.parameters.as_slice(), parameters)))
}

/// The tokens behind a declaration.
pub fn behind_declaration<'a>(declaration: &Declaration, tokens: &'a [Token]) -> &'a [Token]
    ensures { result.now ≡ behind_declaration (declaration_tree declaration.now) tokens.now }
{
    match declaration {
        Declaration::Global(global) => {
            let size = next(behind_type(global.kind, tokens));
            let beginning = behind_size(&global.size, size);
            next(behind_initializer(&global.initializer, beginning))
        }
        Declaration::Function(function) => {
            next(behind_statements(function.body.as_slice(), body_tokens(function, tokens)))
        }
        Declaration::Prototype(prototype) => {
            let parameters = next(next(behind_result(prototype.result, tokens)));
            next(next(behind_open(prototype.parameters.as_slice(), parameters)))
        }
    }
}
