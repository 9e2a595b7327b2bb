//! Readers of what a function and its prototype begin with (C99 6.7.5.3).

ghost use Rattle.std.specs.Prelude.{◌≡◌, ◌≢◌, IfOk, IfErr, Ok, Err, length};
ghost use Rattle.c_reader_productions.specs.Combining.{commas};
ghost use Rattle.c_reader_declaration_laws.specs.Parameters.{named, all_named};
ghost use Rattle.c_reader_declaration_laws.specs.Reading.{open_parameter, open_parameters, return_type, heading};
ghost use Rattle.c_reader.specs.Functions.{open_name};

use crate::globals::read_here;
use c_reader_tokens::{
    Fault, is_name_next, is_sign_next, is_word_next, read_name, read_sign, read_type, read_word,
};
use c_syntax::{
    Identifier, Keyword, OpenParameter, Parameter, Prototype, Punctuator, ReturnType, Token,
};
use lang_base::Row;
use lang_helpers::{beside, ok};
use std::alloc::Global;

fn read_open_name(alloc: Global, tokens: &[Token]) -> Result<(Option<Identifier>, &[Token]), Fault>
    ensures ok { IfOk result (λ r. open_name tokens.now ≡ Ok (r.0, r.1.now)) }
    ensures err { IfErr result (λ e. e ≢ Fault.NoMemory → open_name tokens.now ≡ Err e) }
{
    if !is_name_next(tokens) {
        return Ok((None, tokens));
    }
    let (name, rest) = ok!(read_name(alloc, tokens));
    Ok((Some(name), rest))
}

#[tactic(auto, unfolding(c_reader_declaration_laws::specs::Reading::open_parameter))]
fn read_open_parameter(alloc: Global, tokens: &[Token]) -> Result<(OpenParameter, &[Token]), Fault>
    ensures ok { IfOk result (λ r. open_parameter tokens.now ≡ Ok (r.0, r.1.now)) }
    ensures err { IfErr result (λ e. e ≢ Fault.NoMemory → open_parameter tokens.now ≡ Err e) }
{
    let offset = ok!(read_here(tokens));
    let (kind, rest) = ok!(read_type(tokens));
    let (name, rest) = ok!(read_open_name(alloc, rest));
    Ok((OpenParameter { kind, name, offset }, rest))
}

/// Parameters with a comma between each two.
#[tactic(auto, using(c_reader_statement_laws::proofs::Loops::commas_begin))]
fn read_listed(alloc: Global, tokens: &[Token]) -> Result<(Vec<OpenParameter>, &[Token]), Fault>
    ensures ok { IfOk result (λ r. commas open_parameter tokens.now ≡ Ok (r.0.items, r.1.now)) }
    ensures err { IfErr result (λ e. e ≢ Fault.NoMemory → commas open_parameter tokens.now ≡ Err e) }
{
    let (first, mut rest) = read_open_parameter(alloc, tokens)?;
    let mut parameters = Vec::new(alloc);
    parameters.push(first)?;
    for _ in 0..rest.len() {
        if !is_sign_next(Punctuator::Comma, rest) {
            break;
        }
        let behind = read_sign(Punctuator::Comma, rest)?;
        let (next, behind) = read_open_parameter(alloc, behind)?;
        parameters.push(next)?;
        rest = behind;
    }
    Ok((parameters, rest))
}

#[tactic(auto, unfolding(c_reader_declaration_laws::specs::Reading::open_parameters))]
fn read_open_parameters(
    alloc: Global,
    tokens: &[Token],
) -> Result<(Row<OpenParameter>, &[Token]), Fault>
    ensures ok { IfOk result (λ r. open_parameters tokens.now ≡ Ok (r.0, r.1.now)) }
    ensures err { IfErr result (λ e. e ≢ Fault.NoMemory → open_parameters tokens.now ≡ Err e) }
{
    if is_word_next(Keyword::Void, tokens) {
        let rest = ok!(read_word(Keyword::Void, tokens));
        return Ok((Row::from_vec(Vec::new(alloc)), rest));
    }
    let (parameters, rest) = ok!(read_listed(alloc, tokens));
    Ok((Row::from_vec(parameters), rest))
}

#[tactic(auto, unfolding(c_reader_declaration_laws::specs::Reading::return_type))]
fn read_return_type(tokens: &[Token]) -> Result<(ReturnType, &[Token]), Fault>
    ensures ok { IfOk result (λ r. return_type tokens.now ≡ Ok (r.0, r.1.now)) }
    ensures err { IfErr result (λ e. return_type tokens.now ≡ Err e) }
{
    if is_word_next(Keyword::Void, tokens) {
        let rest = ok!(read_word(Keyword::Void, tokens));
        return Ok((ReturnType::Void, rest));
    }
    let (kind, rest) = ok!(read_type(tokens));
    Ok((ReturnType::Value(kind), rest))
}

/// What a function and its prototype begin with alike.
#[tactic(auto, unfolding(c_reader_declaration_laws::specs::Reading::heading))]
pub(crate) fn read_heading(alloc: Global, tokens: &[Token]) -> Result<(Prototype, &[Token]), Fault>
    ensures ok { IfOk result (λ r. heading tokens.now ≡ Ok (r.0, r.1.now)) }
    ensures err { IfErr result (λ e. e ≢ Fault.NoMemory → heading tokens.now ≡ Err e) }
{
    let (result, rest) = ok!(read_return_type(tokens));
    let (name, rest) = ok!(read_name(alloc, rest));
    let (name, rest) = ok!(beside(name, read_sign(Punctuator::LeftParenthesis, rest)));
    let (name, (parameters, rest)) = ok!(beside(name, read_open_parameters(alloc, rest)));
    let behind = read_sign(Punctuator::RightParenthesis, rest);
    let ((name, parameters), rest) = ok!(beside((name, parameters), behind));
    Ok((
        Prototype {
            result,
            name,
            parameters,
        },
        rest,
    ))
}

/// The same parameter in memory of its own, if it has a name.
fn named(alloc: Global, parameter: &OpenParameter) -> Result<Option<Parameter>, Fault>
    ensures ok { IfOk result (λ found. found ≡ named parameter.now) }
    ensures err { IfErr result (λ e. e ≡ Fault.NoMemory) }
{
    let Some(name) = &parameter.name else {
        return Ok(None);
    };
    let name = Identifier {
        name: name.name.copied(alloc)?,
        offset: name.offset,
    };
    Ok(Some(Parameter {
        kind: parameter.kind,
        name,
        offset: parameter.offset,
    }))
}

/// The same parameters in memory of their own, if all have names.
pub(crate) fn all_named(
    alloc: Global,
    parameters: &[OpenParameter],
) -> Result<Option<Row<Parameter>>, Fault>
    ensures ok { IfOk result (λ found. found ≡ all_named parameters.now) }
    ensures err { IfErr result (λ e. e ≡ Fault.NoMemory) }
{
    let mut all = Vec::new(alloc);
    let mut rest = parameters;
    while let Some((parameter, behind)) = rest.split_first() {
        let Some(parameter) = named(alloc, parameter)? else {
            return Ok(None);
        };
        all.push(parameter)?;
        rest = behind;
    }
    Ok(Some(Row::from_vec(all)))
}
