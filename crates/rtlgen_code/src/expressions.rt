//! Expressions and operands. What calls itself does so at most as often as an expression is high.

ghost use Rattle.std.specs.Prelude.{◌≡◌, ◌+◌, ◌<◌, IfOk};
ghost use Rattle.cminor_syntax.specs.Views.{expression_tree};
ghost use Rattle.rtlgen_definition.specs.Gen.{operand_register, needs};
ghost use Rattle.rtlgen_definition.specs.Pieces.{one};
ghost use Rattle.rtlgen_code.specs.Adding.{Adds};
ghost use Rattle.rtlgen_code.specs.Sources.{branch_piece, value_piece, operand_piece};

use crate::graph::Graph;
use cminor_syntax::Expression;
use ints::Cond;
use lang_base::NoMemory;
use rtl_acts::{Act, Arguments, Test};
use rtl_language::Instruction;

/// The register where an operand's value stands: a variable's own, else the temporary.
pub fn operand_register(expression: &Expression, temporary: u16) -> u16
    ensures { result ≡ operand_register (expression_tree expression.now) temporary }
{
    match expression {
        Expression::Variable(variable) => *variable,
        _ => temporary,
    }
}

/// A plain instruction, which goes on at this node.
pub fn add_act(graph: &mut Graph, act: Act, next: u16) -> Result<u16, NoMemory>
    ensures { IfOk result (λ entry. Adds (one (λ n. Instruction.Do act n)) next graph.old graph.new entry) }
{
    graph.add(Instruction::Do {
        act,
        successor: next,
    })
}

/// A branch to the first node where the register is not 0, and else to the second.
pub fn add_branch(graph: &mut Graph, register: u16, taken: u16, other: u16) -> Result<u16, NoMemory>
    ensures { IfOk result (λ entry. Adds (branch_piece register taken other) 0 graph.old graph.new entry) }
{
    graph.add(Instruction::Branch {
        test: Test {
            condition: Cond::Nz,
            arguments: Arguments::One(register),
        },
        taken,
        other,
    })
}

/// An expression whose value goes to the target. Its operands have temporaries from this one on.
#[cycle(expressions)]
pub fn add_expression(
    graph: &mut Graph,
    expression: &Expression,
    target: u16,
    temporary: u16,
    next: u16,
) -> Result<u16, NoMemory>
    requires { temporary + needs (expression_tree expression.now) < 65536 }
    ensures { IfOk result (λ entry. Adds (value_piece expression.now target temporary) next graph.old graph.new entry) }
{
    match expression {
        Expression::Constant(word) => {
            add_act(
                graph,
                Act::Constant {
                    target,
                    word: *word,
                },
                next,
            )
        }
        Expression::Variable(variable) => {
            add_act(
                graph,
                Act::Move {
                    target,
                    source: *variable,
                },
                next,
            )
        }
        Expression::Load(global, index) => {
            let last = add_act(
                graph,
                Act::Load {
                    target,
                    global: *global,
                    index: operand_register(index, temporary),
                },
                next,
            )?;
            add_operand(graph, index, temporary, last)
        }
        Expression::Unary(op, argument) => {
            let last = add_act(
                graph,
                Act::Operate {
                    op: *op,
                    target,
                    arguments: Arguments::One(operand_register(argument, temporary)),
                },
                next,
            )?;
            add_operand(graph, argument, temporary, last)
        }
        Expression::Binary(op, left, right) => {
            let last = add_act(
                graph,
                Act::Operate {
                    op: *op,
                    target,
                    arguments: Arguments::Two(
                        operand_register(left, temporary),
                        operand_register(right, temporary + 1),
                    ),
                },
                next,
            )?;
            let second = add_operand(graph, right, temporary + 1, last)?;
            add_operand(graph, left, temporary, second)
        }
        Expression::Choice(condition, then, other) => {
            let other = add_expression(graph, other, target, temporary, next)?;
            let then = add_expression(graph, then, target, temporary, next)?;
            let branch = add_branch(graph, operand_register(condition, temporary), then, other)?;
            add_operand(graph, condition, temporary, branch)
        }
    }
}

/// An operand, whose value goes to its register.
#[cycle(expressions)]
pub fn add_operand(
    graph: &mut Graph,
    expression: &Expression,
    temporary: u16,
    next: u16,
) -> Result<u16, NoMemory>
    requires { temporary + needs (expression_tree expression.now) < 65536 }
    ensures { IfOk result (λ entry. Adds (operand_piece expression.now temporary) next graph.old graph.new entry) }
{
    match expression {
        Expression::Variable(_) => Ok(next),
        _ => add_expression(graph, expression, temporary, temporary, next),
    }
}
