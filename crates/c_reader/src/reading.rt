//! The reader of a whole text.

ghost use Rattle.std.specs.Prelude.{◌≡◌, IfOk, IfErr, Ok, map};
ghost use Rattle.c_syntax.specs.Heights.{highest};
ghost use Rattle.c_syntax.specs.Declarations.{end_of, IsUnit};
ghost use Rattle.c_syntax.specs.Trees.{UnitTree};
ghost use Rattle.c_syntax.specs.Views.{declaration_tree};
ghost use Rattle.c_reader_declaration_laws.specs.Reading.{is_next_there, declarations};
ghost use Rattle.c_syntax.specs.Units.{unit_tree};
ghost use Rattle.c_reader.specs.Refusing.{AreLow, Refuses};
ghost use Rattle.c_reader.specs.Telling.{begin_of, error_of, Tells};

use crate::errors::ReadError;
use crate::{Misread, read_declaration};
use c_reader_tokens::Fault;
use c_syntax::{Declaration, Token, Unit};
use std::alloc::Global;

/// Where the last token ends, 0 where there is none.
fn end_of(tokens: &[Token]) -> usize
    ensures { result ≡ end_of tokens.now }
{
    match tokens.last() {
        Some(token) => token.end,
        None => 0,
    }
}

/// Whether a token is next.
fn is_next_there(tokens: &[Token]) -> bool
    ensures { result ≡ is_next_there tokens.now }
{
    match tokens {
        [] => false,
        [_token, _rest @ ..] => true,
    }
}

/// The byte offset of the first token.
fn begin_of(tokens: &[Token]) -> usize
    ensures { result ≡ begin_of tokens.now }
{
    match tokens {
        [] => 0,
        [token, _rest @ ..] => token.start,
    }
}

/// What is told where a declaration that begins with these tokens is not read.
fn told(misread: Misread, tokens: &[Token], end: usize) -> ReadError
    ensures { result ≡ error_of misread.fault misread.initial tokens.now end }
{
    match misread.fault {
        Fault::NoMemory => ReadError::NoMemory,
        Fault::Syntax(at) => ReadError::Syntax(at.unwrap_or(end)),
        Fault::TooDeep => ReadError::TooDeep(misread.initial.unwrap_or(begin_of(tokens))),
    }
}

/// Declarations up to the end, which is at this offset.
#[tactic(auto, using(c_reader_statement_laws::proofs::Loops::each_begins), unfolding(c_reader_declaration_laws::specs::Reading::declarations))]
fn read_declarations(
    alloc: Global,
    tokens: &[Token],
    end: usize,
) -> Result<(Vec<Declaration>, &[Token]), ReadError>
    ensures ok { IfOk result (λ r. declarations highest tokens.now ≡ Ok (map declaration_tree r.0.items, r.1.now)) }
    ensures err { IfErr result (λ e. Tells e end (declarations highest tokens.now)) }
{
    let mut read = Vec::new(alloc);
    let mut rest = tokens;
    for _ in 0..tokens.len() {
        if !is_next_there(rest) {
            break;
        }
        match read_declaration(alloc, rest) {
            Ok((declaration, behind)) => {
                read.push(declaration)?;
                rest = behind;
            }
            Err(misread) => return Err(told(misread, rest, end)),
        }
    }
    Ok((read, rest))
}

/// The text that the tokens spell: they spell no other that is not too high. Reading is linear in the tokens.
#[tactic(auto, using(crate::proofs::Sound::spelled_read, crate::proofs::Sound::low_read, crate::proofs::Sound::one_tree, crate::proofs::Sound::refused))]
pub fn read(alloc: Global, tokens: &[Token]) -> Result<Unit, ReadError>
    ensures ok { IfOk result (λ u. IsUnit (unit_tree u) tokens.now) }
    ensures low { IfOk result (λ u. AreLow (unit_tree u)) }
    ensures only { (u : UnitTree) → IsUnit u tokens.now → AreLow u → IfOk result (λ v. unit_tree v ≡ u) }
    ensures err { IfErr result (λ e. Refuses e tokens.now) }
{
    let end = end_of(tokens);
    let (declarations, _rest) = read_declarations(alloc, tokens, end)?;
    Ok(Unit::new(declarations, end))
}
