//! Readers of statements. What calls itself does so with less fuel.

ghost use Rattle.std.specs.Prelude.{◌≡◌};
ghost use Rattle.lang_base.specs.Reading.{Reads};
ghost use Rattle.cminor_syntax.specs.Fits.{height_limit};
ghost use Rattle.cminor_syntax.specs.Trees as T;
ghost use Rattle.cminor_syntax.specs.Views.{statement_tree, statements_tree};
ghost use Rattle.cminor_form.specs.Reading.{statement_of, too_high, sequence, statement};
ghost use Rattle.cminor_codec.specs.Results.{statements_of};
ghost use Rattle.cminor_codec.specs.Parts.{coded_statement, statements, condition_and_two};

use crate::expressions::read_expression;
use crate::parts::boxed;
use crate::plain::read_plain;
use cminor_syntax::Statement;
use lang_base::{FormError, read_byte, read_u32};
use lang_helpers::beside;
use std::alloc::Global;

/// No statement is higher.
const HEIGHT_LIMIT: u16 = 1000;

/// The body of a function with so many variables.
pub fn read_body(alloc: Global, variables: u16, bytes: &mut &[u8]) -> Result<Statement, FormError>
    ensures { Reads (statement height_limit variables bytes.old.now) (statement_of result) bytes.new.now }
{
    read_statement(alloc, HEIGHT_LIMIT, variables, bytes)
}

/// A node for which no fuel is left.
#[tactic(auto, unfolding(cminor_form::specs::Reading::too_high))]
fn refuse_height(bytes: &mut &[u8]) -> Result<Statement, FormError>
    ensures { Reads (too_high bytes.old.now) (statement_of result) bytes.new.now }
{
    read_byte(bytes)?;
    Err(FormError::TooLarge)
}

/// The statement that does these, one after the other.
pub fn sequence(statements: Vec<Statement>) -> Statement
    ensures { statement_tree result ≡ T.Sequence (statements_tree statements.items) }
{
    Statement::Sequence(statements)
}

/// A statement that is at most as high as the fuel.
#[cycle(statements)]
#[tactic(auto, using(crate::proofs::Fuel::statement_without, crate::proofs::Fuel::statement_with))]
fn read_statement(
    alloc: Global,
    fuel: u16,
    variables: u16,
    bytes: &mut &[u8],
) -> Result<Statement, FormError>
    ensures { Reads (statement fuel variables bytes.old.now) (statement_of result) bytes.new.now }
{
    if fuel == 0 {
        return refuse_height(bytes);
    }
    read_by_code(alloc, fuel - 1, variables, bytes)
}

/// A statement whose parts have so much fuel.
#[cycle(statements)]
#[tactic(auto, unfolding(cminor_form::specs::Reading::statement_by_code))]
fn read_by_code(
    alloc: Global,
    below: u16,
    variables: u16,
    bytes: &mut &[u8],
) -> Result<Statement, FormError>
    ensures { Reads (coded_statement below variables bytes.old.now) (statement_of result) bytes.new.now }
{
    match read_byte(bytes)? {
        5 => read_sequence(alloc, below, variables, bytes),
        6 => read_branch(alloc, below, variables, bytes),
        7 => {
            let body = boxed(alloc, read_statement(alloc, below, variables, bytes))?;
            Ok(Statement::Loop(body))
        }
        8 => {
            let body = boxed(alloc, read_statement(alloc, below, variables, bytes))?;
            Ok(Statement::Block(body))
        }
        code => read_plain(alloc, below, variables, code, bytes),
    }
}

/// A count, and so many statements.
#[cycle(statements)]
#[tactic(auto, using(crate::proofs::Rows::statements_named), unfolding(cminor_form::specs::Reading::sequence))]
fn read_sequence(
    alloc: Global,
    below: u16,
    variables: u16,
    bytes: &mut &[u8],
) -> Result<Statement, FormError>
    ensures { Reads (sequence (statement below variables) bytes.old.now) (statement_of result) bytes.new.now }
{
    let count = read_u32(bytes)?;
    let statements = read_so_many(alloc, count, below, variables, bytes)?;
    Ok(sequence(statements))
}

#[cycle(statements)]
fn read_so_many(
    alloc: Global,
    count: u32,
    below: u16,
    variables: u16,
    bytes: &mut &[u8],
) -> Result<Vec<Statement>, FormError>
    ensures { Reads (statements count below variables bytes.old.now) (statements_of result) bytes.new.now }
{
    let mut statements = Vec::new(alloc);
    for _ in 0..count {
        let statement = read_statement(alloc, below, variables, bytes)?;
        statements.push(statement)?;
    }
    Ok(statements)
}

/// A condition and two statements.
#[cycle(statements)]
#[tactic(auto, unfolding(cminor_form::specs::Reading::branch))]
fn read_branch(
    alloc: Global,
    below: u16,
    variables: u16,
    bytes: &mut &[u8],
) -> Result<Statement, FormError>
    ensures { Reads (condition_and_two below variables bytes.old.now) (statement_of result) bytes.new.now }
{
    let condition = read_expression(alloc, below, variables, bytes)?;
    let then = boxed(alloc, read_statement(alloc, below, variables, bytes));
    let parts = beside(condition, then)?;
    let other = boxed(alloc, read_statement(alloc, below, variables, bytes));
    let ((condition, then), other) = beside(parts, other)?;
    Ok(Statement::If(condition, then, other))
}
