//! The reader of one declaration (C99 6.9).

ghost use Rattle.std.specs.Prelude.{◌≡◌, ◌≢◌, true, None, IfOk, IfErr, Ok, Err};
ghost use Rattle.c_syntax.specs.Heights.{highest};
ghost use Rattle.c_syntax.specs.Views.{statements_tree, declaration_tree};
ghost use Rattle.c_reader_declaration_laws.specs.Reading.{body, headed, callable, is_callable_next, declaration};
ghost use Rattle.c_reader.specs.Functions.{function_of};

use crate::globals::{HIGHEST, read_global};
use crate::misread::Misread;
use crate::parameters::{all_named, read_heading};
use c_reader_statements::read_block;
use c_reader_tokens::{
    Fault, is_call_next, is_sign_next, is_word_next, misfit, read_sign, read_type,
};
use c_syntax::{Declaration, Function, Keyword, Prototype, Punctuator, Statement, Token};
use lang_base::Row;
use lang_helpers::{beside, ok};
use std::alloc::Global;

/// A body is as high as the block that it is.
#[tactic(auto, unfolding(c_reader_declaration_laws::specs::Reading::body, c_reader_productions::specs::Parts::less))]
fn read_body(alloc: Global, tokens: &[Token]) -> Result<(Vec<Statement>, &[Token]), Fault>
    ensures ok { IfOk result (λ r. body highest tokens.now ≡ Ok (statements_tree r.0.items, r.1.now)) }
    ensures err { IfErr result (λ e. e ≢ Fault.NoMemory → body highest tokens.now ≡ Err e) }
{
    read_block(alloc, HIGHEST - 1, tokens)
}

/// A function's body, behind parameters that all have names.
fn read_function(
    alloc: Global,
    prototype: Prototype,
    tokens: &[Token],
) -> Result<(Declaration, &[Token]), Fault>
    ensures ok { IfOk result (λ r. function_of prototype tokens.now ≡ Ok (declaration_tree r.0, r.1.now)) }
    ensures err { IfErr result (λ e. e ≢ Fault.NoMemory → function_of prototype tokens.now ≡ Err e) }
{
    let Prototype {
        result,
        name,
        parameters,
    } = prototype;
    let Some(parameters) = all_named(alloc, parameters.as_slice())? else {
        return Err(misfit(tokens));
    };
    let (parts, (body, rest)) = ok!(beside((name, parameters), read_body(alloc, tokens)));
    let (name, parameters) = parts;
    let function = Function {
        result,
        name,
        parameters,
        body: Row::from_vec(body),
    };
    Ok((Declaration::Function(function), rest))
}

/// A function where a body is next, else a prototype.
#[tactic(auto, unfolding(c_reader_declaration_laws::specs::Reading::headed))]
fn read_headed(
    alloc: Global,
    prototype: Prototype,
    tokens: &[Token],
) -> Result<(Declaration, &[Token]), Fault>
    ensures ok { IfOk result (λ r. headed highest prototype tokens.now ≡ Ok (declaration_tree r.0, r.1.now)) }
    ensures err { IfErr result (λ e. e ≢ Fault.NoMemory → headed highest prototype tokens.now ≡ Err e) }
{
    if is_sign_next(Punctuator::LeftBrace, tokens) {
        return read_function(alloc, prototype, tokens);
    }
    let (prototype, rest) = ok!(beside(prototype, read_sign(Punctuator::Semicolon, tokens)));
    Ok((Declaration::Prototype(prototype), rest))
}

#[tactic(auto, unfolding(c_reader_declaration_laws::specs::Reading::callable))]
fn read_callable(alloc: Global, tokens: &[Token]) -> Result<(Declaration, &[Token]), Fault>
    ensures ok { IfOk result (λ r. callable highest tokens.now ≡ Ok (declaration_tree r.0, r.1.now)) }
    ensures err { IfErr result (λ e. e ≢ Fault.NoMemory → callable highest tokens.now ≡ Err e) }
{
    let (prototype, rest) = ok!(read_heading(alloc, tokens));
    read_headed(alloc, prototype, rest)
}

/// Whether a function or a prototype is next.
#[tactic(auto, unfolding(c_reader_declaration_laws::specs::Reading::is_callable_next))]
fn is_callable_next(tokens: &[Token]) -> bool
    ensures { result ≡ is_callable_next tokens.now }
{
    if is_word_next(Keyword::Void, tokens) {
        return true;
    }
    match read_type(tokens) {
        Ok((_kind, rest)) => is_call_next(rest),
        Err(_) => false,
    }
}

/// A declaration, and the tokens behind it. Where it is too high, it is a function, or the fault tells
/// where the initial expression begins.
#[tactic(auto, unfolding(c_reader_declaration_laws::specs::Reading::declaration))]
pub fn read_declaration(alloc: Global, tokens: &[Token]) -> Result<(Declaration, &[Token]), Misread>
    ensures ok { IfOk result (λ r. declaration highest tokens.now ≡ Ok (declaration_tree r.0, r.1.now)) }
    ensures err { IfErr result (λ e. e.fault ≢ Fault.NoMemory → declaration highest tokens.now ≡ Err e.fault) }
    // No initial expression is told of in a function.
    ensures function { is_callable_next tokens.now ≡ true → IfErr result (λ e. e.initial ≡ None) }
{
    if is_callable_next(tokens) {
        return Ok(read_callable(alloc, tokens)?);
    }
    let (global, rest) = ok!(read_global(alloc, tokens));
    Ok((Declaration::Global(global), rest))
}
