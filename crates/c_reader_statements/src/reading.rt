//! Readers of statements (C99 6.8). Those that call each other read no more than the statements inside a
//! statement, and put it together.

ghost use Rattle.std.specs.Prelude.{◌≡◌, ◌≢◌, false, IfOk, IfErr, Ok, Err, map};
ghost use Rattle.c_syntax.specs.Views.{statement_tree, statements_tree, expression_tree};
ghost use Rattle.c_syntax.specs.Trees as T;
ghost use Rattle.c_syntax.specs.declared.keyword.Keyword.TheVariants as K;
ghost use Rattle.c_syntax.specs.declared.punctuator.Punctuator.TheVariants as P;
ghost use Rattle.c_reader_tokens.specs.Tokens.{sign};
ghost use Rattle.c_reader_productions.specs.Combining.{marks};
ghost use Rattle.c_reader_tokens.specs.Peeking.{is_word_next};
ghost use Rattle.c_reader_statement_laws.specs.Reading.{items_in, block_in, else_in, branches_in, do_end, statement_at};
ghost use Rattle.c_reader_statements.specs.Branches.{branched_tree, branches_tree, other_tree};
ghost use Rattle.c_reader_statements.specs.Heads.{behind, behind_do, looped};

use crate::first::{first_of, is_whole, too_high};
use crate::heads::{Head, Loop, read_head, read_whole};
use c_reader_expressions::expression;
use c_reader_tokens::{Fault, is_sign_next, is_word_next, read_sign, read_word};
use c_syntax::{Expression, Keyword, Punctuator, Statement, Token};
use lang_helpers::{beside, ok};
use std::alloc::Global;

/// A statement in a box.
fn boxed(alloc: Global, statement: Statement) -> Result<Box<Statement>, Fault>
    ensures ok { IfOk result (λ b. b.value ≡ statement) }
    ensures err { IfErr result (λ e. e ≡ Fault.NoMemory) }
{
    Ok(Box::new(alloc, statement)?)
}

/// What an `if` makes of its condition, its statement, and what stands behind `else`.
fn branched(condition: Expression, branches: (Box<Statement>, Option<Box<Statement>>)) -> Statement
    ensures { statement_tree result ≡ branched_tree condition branches }
{
    let (then, other) = branches;
    match other {
        None => Statement::If(condition, then),
        Some(other) => Statement::IfElse(condition, then, other),
    }
}

/// What a loop makes of its body.
fn looped(head: Loop, body: Box<Statement>) -> Statement
    ensures { statement_tree result ≡ looped head (statement_tree body.value) }
{
    match head {
        Loop::While(condition) => Statement::While(condition, body),
        Loop::For(head) => Statement::For(head, body),
    }
}

/// The `)` and the `;` behind the condition of a `do`.
fn read_closing(tokens: &[Token]) -> Result<&[Token], Fault>
    ensures ok { IfOk result (λ rest. marks (sign P.RightParenthesis) (sign P.Semicolon) tokens.now ≡ Ok rest.now) }
    ensures err { IfErr result (λ e. marks (sign P.RightParenthesis) (sign P.Semicolon) tokens.now ≡ Err e) }
{
    let rest = ok!(read_sign(Punctuator::RightParenthesis, tokens));
    read_sign(Punctuator::Semicolon, rest)
}

/// The condition behind the body of a `do`, and `;` (C99 6.8.5.2).
#[tactic(auto, unfolding(c_reader_statement_laws::specs::Reading::do_end))]
fn read_do_end(alloc: Global, fuel: u8, tokens: &[Token]) -> Result<(Expression, &[Token]), Fault>
    ensures ok { IfOk result (λ r. do_end fuel tokens.now ≡ Ok (expression_tree r.0, r.1.now)) }
    ensures err { IfErr result (λ e. e ≢ Fault.NoMemory → do_end fuel tokens.now ≡ Err e) }
{
    let rest = ok!(read_word(Keyword::While, tokens));
    let rest = ok!(read_sign(Punctuator::LeftParenthesis, rest));
    let (condition, rest) = ok!(expression(alloc, fuel, 0, rest));
    let (condition, rest) = ok!(beside(condition, read_closing(rest)));
    Ok((condition, rest))
}

/// The same statements, with no space for more: most blocks hold few, and a statement is large.
fn fitted(statements: Vec<Statement>) -> Vec<Statement>
    ensures { result.items ≡ statements.items }
{
    let mut statements = statements;
    statements.shrink_to_fit();
    statements
}

/// A block as a statement.
fn block_of(statements: Vec<Statement>) -> Statement
    ensures { statement_tree result ≡ T.Block (statements_tree statements.items) }
{
    Statement::Block(fitted(statements))
}

/// Whether an `else` is next: it belongs to the `if` whose statement was just read, the nearest
/// (C99 6.8.4.1 paragraph 3).
fn is_else_next(tokens: &[Token]) -> bool
    ensures { result ≡ is_word_next K.Else tokens.now }
{
    is_word_next(Keyword::Else, tokens)
}

/// The statements of a block, up to `}`.
#[cycle(statements)]
fn read_items(
    alloc: Global,
    fuel: u8,
    tokens: &[Token],
) -> Result<(Vec<Statement>, &[Token]), Fault>
    ensures ok { IfOk result (λ r. items_in (statement_at fuel) tokens.now ≡ Ok (map statement_tree r.0.items, r.1.now)) }
    ensures err { IfErr result (λ e. e ≢ Fault.NoMemory → items_in (statement_at fuel) tokens.now ≡ Err e) }
{
    let mut statements = Vec::new(alloc);
    let mut rest = tokens;
    for _ in 0..tokens.len() {
        if is_sign_next(Punctuator::RightBrace, rest) {
            break;
        }
        let (statement, behind) = read_statement(alloc, fuel, true, rest)?;
        statements.push(statement)?;
        rest = behind;
    }
    Ok((statements, rest))
}

/// A statement inside another, in a box.
#[cycle(statements)]
fn read_inside(
    alloc: Global,
    fuel: u8,
    tokens: &[Token],
) -> Result<(Box<Statement>, &[Token]), Fault>
    ensures ok { IfOk result (λ r. statement_at fuel false tokens.now ≡ Ok (statement_tree r.0.value, r.1.now)) }
    ensures err { IfErr result (λ e. e ≢ Fault.NoMemory → statement_at fuel false tokens.now ≡ Err e) }
{
    let (statement, rest) = ok!(read_statement(alloc, fuel, false, tokens));
    Ok((ok!(boxed(alloc, statement)), rest))
}

/// The statement behind `else`, if that is next.
#[cycle(statements)]
fn read_other(
    alloc: Global,
    fuel: u8,
    tokens: &[Token],
) -> Result<(Option<Box<Statement>>, &[Token]), Fault>
    ensures ok { IfOk result (λ r. else_in (statement_at fuel) tokens.now ≡ Ok (other_tree r.0, r.1.now)) }
    ensures err { IfErr result (λ e. e ≢ Fault.NoMemory → else_in (statement_at fuel) tokens.now ≡ Err e) }
{
    if !is_else_next(tokens) {
        return Ok((None, tokens));
    }
    let rest = ok!(read_word(Keyword::Else, tokens));
    let (other, rest) = ok!(read_inside(alloc, fuel, rest));
    Ok((Some(other), rest))
}

/// The statement of an `if`, and the one behind `else` (C99 6.8.4.1).
#[cycle(statements)]
#[tactic(auto, unfolding(c_reader_statement_laws::specs::Reading::branches_in))]
fn read_branches(
    alloc: Global,
    fuel: u8,
    tokens: &[Token],
) -> Result<((Box<Statement>, Option<Box<Statement>>), &[Token]), Fault>
    ensures ok { IfOk result (λ r. branches_in (statement_at fuel) tokens.now ≡ Ok (branches_tree r.0, r.1.now)) }
    ensures err { IfErr result (λ e. e ≢ Fault.NoMemory → branches_in (statement_at fuel) tokens.now ≡ Err e) }
{
    let (then, rest) = ok!(read_inside(alloc, fuel, tokens));
    let (then, (other, rest)) = ok!(beside(then, read_other(alloc, fuel, rest)));
    Ok(((then, other), rest))
}

/// What stands behind the word `do` (C99 6.8.5.2).
#[cycle(statements)]
fn read_do(alloc: Global, fuel: u8, tokens: &[Token]) -> Result<(Statement, &[Token]), Fault>
    ensures ok { IfOk result (λ r. behind_do (statement_at fuel) fuel tokens.now ≡ Ok (statement_tree r.0, r.1.now)) }
    ensures err { IfErr result (λ e. e ≢ Fault.NoMemory → behind_do (statement_at fuel) fuel tokens.now ≡ Err e) }
{
    let (body, rest) = ok!(read_inside(alloc, fuel, tokens));
    let (body, (condition, rest)) = ok!(beside(body, read_do_end(alloc, fuel, rest)));
    Ok((Statement::Do(body, condition), rest))
}

/// What stands behind a head, whose statements have this fuel.
#[cycle(statements)]
#[tactic(auto, using(crate::proofs::Trees::statements_named))]
fn read_behind(
    alloc: Global,
    fuel: u8,
    head: Head,
    tokens: &[Token],
) -> Result<(Statement, &[Token]), Fault>
    ensures ok { IfOk result (λ r. behind (statement_at fuel) fuel head tokens.now ≡ Ok (statement_tree r.0, r.1.now)) }
    ensures err { IfErr result (λ e. e ≢ Fault.NoMemory → behind (statement_at fuel) fuel head tokens.now ≡ Err e) }
{
    match head {
        Head::Block => {
            let (statements, rest) = ok!(read_items(alloc, fuel, tokens));
            let rest = ok!(read_sign(Punctuator::RightBrace, rest));
            Ok((block_of(statements), rest))
        }
        Head::If(condition) => {
            let branches = read_branches(alloc, fuel, tokens);
            let (condition, (branches, rest)) = ok!(beside(condition, branches));
            Ok((branched(condition, branches), rest))
        }
        Head::Loop(head) => {
            let body = read_inside(alloc, fuel, tokens);
            let (head, (body, rest)) = ok!(beside(head, body));
            Ok((looped(head, body), rest))
        }
        Head::Do => read_do(alloc, fuel, tokens),
    }
}

/// A statement, or in a block a local, which is at most as high as the fuel.
#[cycle(statements)]
#[tactic(auto, using(crate::proofs::Trees::with_fuel, crate::proofs::Trees::without_fuel))]
fn read_statement(
    alloc: Global,
    fuel: u8,
    block: bool,
    tokens: &[Token],
) -> Result<(Statement, &[Token]), Fault>
    ensures ok { IfOk result (λ r. statement_at fuel block tokens.now ≡ Ok (statement_tree r.0, r.1.now)) }
    ensures err { IfErr result (λ e. e ≢ Fault.NoMemory → statement_at fuel block tokens.now ≡ Err e) }
{
    let first = first_of(block, tokens);
    if fuel == 0 {
        return Err(too_high(first, tokens));
    }
    if is_whole(first) {
        return read_whole(alloc, fuel - 1, first, tokens);
    }
    let (head, rest) = ok!(read_head(alloc, fuel - 1, first, tokens));
    read_behind(alloc, fuel - 1, head, rest)
}

/// A block whose statements have this fuel (C99 6.8.2).
#[tactic(auto, using(crate::proofs::Trees::statements_named), unfolding(c_reader_statement_laws::specs::Reading::block_in))]
pub fn read_block(
    alloc: Global,
    fuel: u8,
    tokens: &[Token],
) -> Result<(Vec<Statement>, &[Token]), Fault>
    ensures ok { IfOk result (λ r. block_in (statement_at fuel) tokens.now ≡ Ok (statements_tree r.0.items, r.1.now)) }
    ensures err { IfErr result (λ e. e ≢ Fault.NoMemory → block_in (statement_at fuel) tokens.now ≡ Err e) }
{
    let rest = ok!(read_sign(Punctuator::LeftBrace, tokens));
    let (statements, rest) = ok!(read_items(alloc, fuel, rest));
    let rest = ok!(read_sign(Punctuator::RightBrace, rest));
    Ok((fitted(statements), rest))
}
