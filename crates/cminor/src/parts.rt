//! Statements put together from their parts.

ghost use Rattle.std.specs.Prelude.{◌≡◌, IfOk};
ghost use Rattle.cminor_syntax.specs.Trees as T;
ghost use Rattle.cminor_syntax.specs.Views.{expression_tree, statement_tree};
ghost use Rattle.cminor_lowering.specs.Actions.{two, update};
ghost use Rattle.cminor.specs.Parts.{three_tree, turn_tree, turns_tree};

use crate::choices;
use cminor_language::sequence;
use cminor_syntax::{Expression, Statement};
use ints::Op;
use lang_base::NoMemory;
use lang_helpers::beside;
use std::alloc::Global;

/// A statement in a box.
pub(crate) fn boxed(alloc: Global, inner: Statement) -> Result<Box<Statement>, NoMemory>
    ensures { IfOk result (λ b. statement_tree b.value ≡ statement_tree inner) }
{
    Ok(Box::new(alloc, inner)?)
}

/// One statement and then another.
pub(crate) fn two(alloc: Global, first: Statement, second: Statement) -> Result<Statement, NoMemory>
    ensures { IfOk result (λ s. statement_tree s ≡ two (statement_tree first) (statement_tree second)) }
{
    Ok(sequence(vec![in alloc; first, second]?))
}

/// The cell whose index a variable holds, in a box.
fn held_cell(alloc: Global, variable: u16, global: u16) -> Result<Box<Expression>, NoMemory>
    ensures { IfOk result (λ b. expression_tree b.value ≡ T.Load global (T.Variable variable)) }
{
    let index = choices::boxed(alloc, Expression::Variable(variable))?;
    choices::boxed(alloc, Expression::Load(global, index))
}

/// A cell becomes what an operator gives of its word and another. The spare variable holds its index.
pub(crate) fn update(
    alloc: Global,
    spare: u16,
    global: u16,
    index: Expression,
    op: Op,
    word: Expression,
) -> Result<Statement, NoMemory>
    ensures { IfOk result (λ s. statement_tree s ≡ update spare global (expression_tree index) op (expression_tree word)) }
{
    let (index, word) = beside(index, choices::boxed(alloc, word))?;
    let (parts, cell) = beside((index, word), held_cell(alloc, spare, global))?;
    let (index, word) = parts;
    let becomes = Expression::Binary(op, cell, word);
    let stores = Statement::Store(global, Expression::Variable(spare), becomes);
    two(alloc, Statement::Assign(spare, index), stores)
}

/// Three statements, one after the other.
fn three(
    alloc: Global,
    first: Statement,
    second: Statement,
    third: Statement,
) -> Result<Statement, NoMemory>
    ensures { IfOk result (λ s. statement_tree s ≡ three_tree first second third) }
{
    Ok(sequence(vec![in alloc; first, second, third]?))
}

/// The head of a loop's turn: where the condition gives 0, the block around is left.
fn head(alloc: Global, condition: Expression) -> Result<Statement, NoMemory>
    ensures { IfOk result (λ s. statement_tree s ≡ T.If (expression_tree condition) T.Skip (T.Exit 0)) }
{
    let (condition, goes_on) = beside(condition, boxed(alloc, Statement::Skip))?;
    let (parts, leaves) = beside((condition, goes_on), boxed(alloc, Statement::Exit(0)))?;
    let (condition, goes_on) = parts;
    Ok(Statement::If(condition, goes_on, leaves))
}

/// A block round a statement.
fn block(alloc: Global, inner: Statement) -> Result<Statement, NoMemory>
    ensures { IfOk result (λ s. statement_tree s ≡ T.Block (statement_tree inner)) }
{
    Ok(Statement::Block(Box::new(alloc, inner)?))
}

/// A turn of a loop: its condition, its body, and what stands behind that.
fn turn(
    alloc: Global,
    condition: Expression,
    body: Statement,
    behind: Statement,
) -> Result<Statement, NoMemory>
    ensures { IfOk result (λ s. statement_tree s ≡ turn_tree condition body behind) }
{
    let (parts, head) = beside((body, behind), head(alloc, condition))?;
    let (body, behind) = parts;
    let (parts, body) = beside((head, behind), block(alloc, body))?;
    let (head, behind) = parts;
    three(alloc, head, body, behind)
}

/// The loop of such turns, in the block that it leaves.
pub(crate) fn turns(
    alloc: Global,
    condition: Expression,
    body: Statement,
    behind: Statement,
) -> Result<Statement, NoMemory>
    ensures { IfOk result (λ s. statement_tree s ≡ turns_tree condition body behind) }
{
    let turn = turn(alloc, condition, body, behind)?;
    block(alloc, Statement::Loop(Box::new(alloc, turn)?))
}
