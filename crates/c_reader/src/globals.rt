//! Readers of globals (C99 6.7.8).

ghost use Rattle.std.specs.Prelude.{◌≡◌, ◌≢◌, ℕ, Some, IfOk, IfErr, Ok, Err, map, length};
ghost use Rattle.c_syntax.specs.Heights.{highest};
ghost use Rattle.c_syntax.specs.Views.{initial_tree, initializer_tree, global_tree, optional_tree};
ghost use Rattle.c_reader_productions.specs.Combining.{commas};
ghost use Rattle.c_reader_declaration_laws.specs.Reading.{here, initial, initializer, size, beginning, global};

use crate::misread::Misread;
use c_reader_statements::expression;
use c_reader_tokens::{
    Fault, is_sign_next, misfit, read_constant, read_name, read_sign, read_type,
};
use c_syntax::{Constant, Global, Initial, Initializer, Punctuator, Token};
use lang_base::Row;
use lang_helpers::{beside, ok};
use std::alloc::Global as Memory;

/// No function and no initial expression is higher.
pub(crate) const HIGHEST: u8 = 200;

/// The byte offset of the next token.
pub(crate) fn read_here(tokens: &[Token]) -> Result<usize, Fault>
    ensures ok { IfOk result (λ at. here tokens.now ≡ Ok (at, tokens.now)) }
    ensures err { IfErr result (λ e. here tokens.now ≡ Err e) }
{
    match tokens {
        [] => Err(misfit(tokens)),
        [token, _rest @ ..] => Ok(token.start),
    }
}

/// An initial expression and its place.
#[tactic(auto, unfolding(c_reader_declaration_laws::specs::Reading::initial))]
fn read_initial(alloc: Memory, tokens: &[Token]) -> Result<(Initial, &[Token]), Misread>
    ensures ok { IfOk result (λ r. initial highest tokens.now ≡ Ok (initial_tree r.0, r.1.now)) }
    ensures err { IfErr result (λ e. e.fault ≢ Fault.NoMemory → initial highest tokens.now ≡ Err e.fault) }
    // Where it begins is told.
    ensures place { IfErr result (λ e. (at : ℕ) → here tokens.now ≡ Ok (at, tokens.now) → e.initial ≡ Some at) }
{
    let offset = read_here(tokens)?;
    match expression(alloc, HIGHEST, 0, tokens) {
        Ok((value, rest)) => Ok((Initial { value, offset }, rest)),
        Err(fault) => Err(Misread {
            fault,
            initial: Some(offset),
        }),
    }
}

/// Initial expressions with a comma between each two.
#[tactic(auto, using(c_reader_statement_laws::proofs::Loops::commas_begin))]
fn read_initials(alloc: Memory, tokens: &[Token]) -> Result<(Vec<Initial>, &[Token]), Misread>
    ensures ok { IfOk result (λ r. commas (initial highest) tokens.now ≡ Ok (map initial_tree r.0.items, r.1.now)) }
    ensures err { IfErr result (λ e. e.fault ≢ Fault.NoMemory → commas (initial highest) tokens.now ≡ Err e.fault) }
{
    let (first, mut rest) = read_initial(alloc, tokens)?;
    let mut initials = Vec::new(alloc);
    initials.push(first)?;
    for _ in 0..rest.len() {
        if !is_sign_next(Punctuator::Comma, rest) {
            break;
        }
        let behind = read_sign(Punctuator::Comma, rest)?;
        let (next, behind) = read_initial(alloc, behind)?;
        initials.push(next)?;
        rest = behind;
    }
    Ok((initials, rest))
}

#[tactic(auto, unfolding(c_reader_declaration_laws::specs::Reading::initializer))]
fn read_initializer(alloc: Memory, tokens: &[Token]) -> Result<(Initializer, &[Token]), Misread>
    ensures ok { IfOk result (λ r. initializer highest tokens.now ≡ Ok (initializer_tree r.0, r.1.now)) }
    ensures err { IfErr result (λ e. e.fault ≢ Fault.NoMemory → initializer highest tokens.now ≡ Err e.fault) }
{
    if !is_sign_next(Punctuator::LeftBrace, tokens) {
        let (initial, rest) = ok!(read_initial(alloc, tokens));
        return Ok((Initializer::Plain(initial), rest));
    }
    let rest = read_sign(Punctuator::LeftBrace, tokens)?;
    let (initials, rest) = ok!(read_initials(alloc, rest));
    let (initials, rest) = beside(initials, read_sign(Punctuator::RightBrace, rest))?;
    Ok((Initializer::Braced(Row::from_vec(initials)), rest))
}

#[tactic(auto, unfolding(c_reader_declaration_laws::specs::Reading::size))]
fn read_size(tokens: &[Token]) -> Result<(Option<Constant>, &[Token]), Fault>
    ensures ok { IfOk result (λ r. size tokens.now ≡ Ok (r.0, r.1.now)) }
    ensures err { IfErr result (λ e. size tokens.now ≡ Err e) }
{
    if !is_sign_next(Punctuator::LeftBracket, tokens) {
        return Ok((None, tokens));
    }
    let rest = ok!(read_sign(Punctuator::LeftBracket, tokens));
    let (size, rest) = ok!(read_constant(rest));
    let rest = ok!(read_sign(Punctuator::RightBracket, rest));
    Ok((Some(size), rest))
}

/// What a global begins with.
#[tactic(auto, unfolding(c_reader_declaration_laws::specs::Reading::beginning))]
fn read_beginning(
    alloc: Memory,
    tokens: &[Token],
) -> Result<(Option<Initializer>, &[Token]), Misread>
    ensures ok { IfOk result (λ r. beginning highest tokens.now ≡ Ok (optional_tree initializer_tree r.0, r.1.now)) }
    ensures err { IfErr result (λ e. e.fault ≢ Fault.NoMemory → beginning highest tokens.now ≡ Err e.fault) }
{
    if !is_sign_next(Punctuator::Assign, tokens) {
        return Ok((None, tokens));
    }
    let rest = read_sign(Punctuator::Assign, tokens)?;
    let (initializer, rest) = ok!(read_initializer(alloc, rest));
    Ok((Some(initializer), rest))
}

/// A global variable or array.
#[tactic(auto, unfolding(c_reader_declaration_laws::specs::Reading::global))]
pub(crate) fn read_global(alloc: Memory, tokens: &[Token]) -> Result<(Global, &[Token]), Misread>
    ensures ok { IfOk result (λ r. global highest tokens.now ≡ Ok (global_tree r.0, r.1.now)) }
    ensures err { IfErr result (λ e. e.fault ≢ Fault.NoMemory → global highest tokens.now ≡ Err e.fault) }
{
    let (kind, rest) = read_type(tokens)?;
    let (name, rest) = read_name(alloc, rest)?;
    let (name, (size, rest)) = beside(name, read_size(rest))?;
    let (name, (initializer, rest)) = ok!(beside(name, read_beginning(alloc, rest)));
    let (parts, rest) = beside((name, initializer), read_sign(Punctuator::Semicolon, rest))?;
    let (name, initializer) = parts;
    Ok((
        Global {
            kind,
            name,
            size,
            initializer,
        },
        rest,
    ))
}
