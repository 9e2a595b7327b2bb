//! Statements, each made from its end. What calls itself does so at most as often as a statement is high.

ghost use Rattle.std.specs.Prelude.{◌≡◌, ◌+◌, ◌<◌, All, IfOk, OnOk};
ghost use Rattle.cminor_syntax.specs.Trees as T;
ghost use Rattle.cminor_syntax.specs.Views.{statement_tree, statements_tree};
ghost use Rattle.rtlgen_definition.specs.Gen as G;
ghost use Rattle.rtlgen_code.specs.Sources.{AddsStatement, AddsStatements};

use crate::blocks::{enter, exit_of, go_on, leave};
use crate::plain::{add_call, add_put, add_return, add_store};
use crate::{Graph, add_branch, add_expression, add_operand, operand_register};
use cminor_syntax::Statement;
use lang_base::NoMemory;
use rtl_acts::Act;
use rtl_language::Instruction;
use std::alloc::Global;

/// Where a sequence has few temporaries, so has each of its statements.
fn each_has_few(statements: &[Statement], temporary: u16)
    requires { temporary + G.statement_needs (T.Sequence (statements_tree statements.now)) < 65536 }
    ensures { All (λ s. temporary + G.statement_needs (statement_tree s) < 65536) statements.now }
{}

/// A statement that goes on at this node. The nodes behind the blocks around it are the exits, the inmost last.
#[cycle(adding)]
pub fn add_statement(
    alloc: Global,
    graph: &mut Graph,
    exits: &mut Vec<u16>,
    statement: &Statement,
    temporary: u16,
    next: u16,
) -> Result<u16, NoMemory>
    requires { temporary + G.statement_needs (statement_tree statement.now) < 65536 }
    ensures added { IfOk result (AddsStatement statement.now temporary exits.old.items next graph.old graph.new) }
    ensures exits { OnOk result (exits.new.items ≡ exits.old.items) }
{
    match statement {
        Statement::Skip => Ok(next),
        Statement::Assign(variable, value) => {
            add_expression(graph, value, *variable, temporary, next)
        }
        Statement::Store(global, index, word) => {
            add_store(graph, *global, index, word, temporary, next)
        }
        Statement::Call(function, target, arguments) => {
            let arguments = arguments.as_slice();
            add_call(alloc, graph, *function, *target, arguments, temporary, next)
        }
        Statement::Put(target, word) => add_put(graph, *target, word, temporary, next),
        Statement::Sequence(all) => {
            let all = all.as_slice();
            each_has_few(all, temporary);
            add_statements(alloc, graph, exits, all, temporary, next)
        }
        Statement::If(condition, then, other) => {
            let other = add_statement(alloc, graph, exits, other, temporary, next)?;
            let then = add_statement(alloc, graph, exits, then, temporary, next)?;
            let branch = add_branch(graph, operand_register(condition, temporary), then, other)?;
            add_operand(graph, condition, temporary, branch)
        }
        Statement::Loop(body) => {
            let head = graph.add(Instruction::Do {
                act: Act::Nop,
                successor: 0,
            })?;
            let turn = add_statement(alloc, graph, exits, body, temporary, head)?;
            go_on(graph, head, turn);
            Ok(head)
        }
        Statement::Block(body) => {
            enter(exits, next)?;
            let entry = add_statement(alloc, graph, exits, body, temporary, next)?;
            leave(exits);
            Ok(entry)
        }
        Statement::Exit(blocks) => Ok(exit_of(exits.as_slice(), *blocks)),
        Statement::Return(value) => add_return(graph, value, temporary, next),
    }
}

/// Statements in order, of which the last is added first.
#[cycle(adding)]
fn add_statements(
    alloc: Global,
    graph: &mut Graph,
    exits: &mut Vec<u16>,
    statements: &[Statement],
    temporary: u16,
    next: u16,
) -> Result<u16, NoMemory>
    requires { All (λ s. temporary + G.statement_needs (statement_tree s) < 65536) statements.now }
    ensures added { IfOk result (AddsStatements statements.now temporary exits.old.items next graph.old graph.new) }
    ensures exits { OnOk result (exits.new.items ≡ exits.old.items) }
{
    let mut entry = next;
    let mut index = statements.len();
    while index > 0 {
        index -= 1;
        entry = add_statement(alloc, graph, exits, &statements[index], temporary, entry)?;
    }
    Ok(entry)
}
