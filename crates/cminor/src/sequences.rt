//! Sequences of statements, and of pieces where a sequence has no number for its length.

ghost use Rattle.std.specs.Prelude.{◌≡◌, ◌<◌, ◌≤◌, length, nat_le, IfOk, MatchBool};
ghost use Rattle.cminor_syntax.specs.Fits.{statement_count};
ghost use Rattle.cminor_syntax.specs.Views.{statement_tree, statements_tree};
ghost use Rattle.cminor_lowering.specs.Sequences.{gathered, most_statements, pieces, sequence};

use cminor_language::sequence;
use cminor_syntax::Statement;
use lang_base::NoMemory;
use std::alloc::Global;
use std::mem;

/// Whether a piece has as many statements as a sequence may have.
fn is_full(piece: &[Statement]) -> bool
    ensures { MatchBool result (most_statements ≤ length piece.now) (length piece.now < most_statements) }
{
    piece.len() >= 4_294_967_295
}

/// The pieces of statements, each a sequence.
fn cut(alloc: Global, statements: Vec<Statement>) -> Result<Vec<Statement>, NoMemory>
    ensures { IfOk result (λ ss. statements_tree ss.items ≡ pieces (statements_tree statements.items)) }
{
    let mut pieces = Vec::new(alloc);
    let mut piece = Vec::new(alloc);
    for statement in statements {
        if is_full(piece.as_slice()) {
            let whole = mem::replace(&mut piece, Vec::new(alloc));
            pieces.push(sequence(whole))?;
        }
        piece.push(statement)?;
    }
    pieces.push(sequence(piece))?;
    Ok(pieces)
}

/// Whether so few statements need not be cut.
#[tactic(auto, using(crate::proofs::Cutting::counted))]
fn are_few(statements: &[Statement]) -> bool
    ensures { result ≡ nat_le (statement_count (statements_tree statements.now)) most_statements }
{
    statements.len() <= 4_294_967_295
}

/// The statements themselves, or where they are too many for one sequence, their pieces.
fn gather(alloc: Global, statements: Vec<Statement>) -> Result<Vec<Statement>, NoMemory>
    ensures { IfOk result (λ ss. statements_tree ss.items ≡ gathered (statements_tree statements.items)) }
{
    if are_few(statements.as_slice()) {
        return Ok(statements);
    }
    cut(alloc, statements)
}

/// The sequence of statements; linear in how many they are.
pub(crate) fn sequence_of(alloc: Global, statements: Vec<Statement>) -> Result<Statement, NoMemory>
    ensures { IfOk result (λ s. statement_tree s ≡ sequence (statements_tree statements.items)) }
{
    let once = gather(alloc, statements)?;
    let twice = gather(alloc, once)?;
    Ok(sequence(twice))
}
