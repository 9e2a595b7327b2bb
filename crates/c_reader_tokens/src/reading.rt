//! Readers of single tokens and of types. Each gives what it read and the tokens behind it.

ghost use Rattle.std.specs.Prelude.{◌≡◌, ◌≢◌, Option, Result, Ok, Err, IfOk, IfErr};
ghost use Rattle.c_reader_tokens.specs.Reading.{misfit};
ghost use Rattle.c_reader_tokens.specs.Tokens.{sign, word, placed_word, placed_name, constant, integer_type};

use crate::fault::Fault;
use crate::peeking::{is_sign, is_word, is_word_next};
use c_syntax::{Constant, Identifier, IntegerType, Keyword, Punctuator, Token, TokenKind};
use std::alloc::Global;

/// The fault of tokens of which the first does not fit.
pub fn misfit(tokens: &[Token]) -> Fault
    ensures { misfit {A = Option Fault} tokens.now ≡ Err result }
{
    match tokens {
        [] => Fault::Syntax(None),
        [token, _rest @ ..] => Fault::Syntax(Some(token.start)),
    }
}

/// A punctuator: gives the tokens behind it.
#[tactic(auto, unfolding(crate::specs::Tokens::sign))]
pub fn read_sign(punctuator: Punctuator, tokens: &[Token]) -> Result<&[Token], Fault>
    ensures ok { IfOk result (λ rest. sign punctuator tokens.now ≡ Ok rest.now) }
    ensures err { IfErr result (λ e. sign punctuator tokens.now ≡ Err e) }
{
    match tokens {
        [token, rest @ ..] if is_sign(punctuator, &token.kind) => Ok(rest),
        _ => Err(misfit(tokens)),
    }
}

/// A keyword: gives the tokens behind it.
#[tactic(auto, unfolding(crate::specs::Tokens::word))]
pub fn read_word(keyword: Keyword, tokens: &[Token]) -> Result<&[Token], Fault>
    ensures ok { IfOk result (λ rest. word keyword tokens.now ≡ Ok rest.now) }
    ensures err { IfErr result (λ e. word keyword tokens.now ≡ Err e) }
{
    match tokens {
        [token, rest @ ..] if is_word(keyword, &token.kind) => Ok(rest),
        _ => Err(misfit(tokens)),
    }
}

/// A keyword and its byte offset.
#[tactic(auto, unfolding(crate::specs::Tokens::placed_word))]
pub fn read_placed_word(keyword: Keyword, tokens: &[Token]) -> Result<(usize, &[Token]), Fault>
    ensures ok { IfOk result (λ r. placed_word keyword tokens.now ≡ Ok (r.0, r.1.now)) }
    ensures err { IfErr result (λ e. placed_word keyword tokens.now ≡ Err e) }
{
    match tokens {
        [token, rest @ ..] if is_word(keyword, &token.kind) => Ok((token.start, rest)),
        _ => Err(misfit(tokens)),
    }
}

/// A name, in memory of its own.
#[tactic(auto, unfolding(crate::specs::Tokens::placed_name))]
pub fn read_name(alloc: Global, tokens: &[Token]) -> Result<(Identifier, &[Token]), Fault>
    ensures ok { IfOk result (λ r. placed_name tokens.now ≡ Ok (r.0, r.1.now)) }
    ensures err { IfErr result (λ e. e ≢ Fault.NoMemory → placed_name tokens.now ≡ Err e) }
{
    match tokens {
        [
            Token {
                kind: TokenKind::Name(name),
                start,
                ..
            },
            rest @ ..,
        ] => {
            let name = name.copied(alloc)?;
            Ok((
                Identifier {
                    name,
                    offset: *start,
                },
                rest,
            ))
        }
        _ => Err(misfit(tokens)),
    }
}

/// A constant.
#[tactic(auto, unfolding(crate::specs::Tokens::constant))]
pub fn read_constant(tokens: &[Token]) -> Result<(Constant, &[Token]), Fault>
    ensures ok { IfOk result (λ r. constant tokens.now ≡ Ok (r.0, r.1.now)) }
    ensures err { IfErr result (λ e. constant tokens.now ≡ Err e) }
{
    match tokens {
        [
            Token {
                kind: TokenKind::Constant(constant),
                ..
            },
            rest @ ..,
        ] => Ok((*constant, rest)),
        _ => Err(misfit(tokens)),
    }
}

/// `int`, `unsigned` or `unsigned int`.
#[tactic(auto, unfolding(crate::specs::Tokens::integer_type))]
pub fn read_type(tokens: &[Token]) -> Result<(IntegerType, &[Token]), Fault>
    ensures ok { IfOk result (λ r. integer_type tokens.now ≡ Ok (r.0, r.1.now)) }
    ensures err { IfErr result (λ e. integer_type tokens.now ≡ Err e) }
{
    if is_word_next(Keyword::Int, tokens) {
        return Ok((IntegerType::Int, read_word(Keyword::Int, tokens)?));
    }
    let rest = read_word(Keyword::Unsigned, tokens)?;
    if is_word_next(Keyword::Int, rest) {
        return Ok((IntegerType::Unsigned, read_word(Keyword::Int, rest)?));
    }
    Ok((IntegerType::Unsigned, rest))
}
