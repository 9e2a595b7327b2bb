//! Statements that hold no statement.

ghost use Rattle.std.specs.Prelude.{◌+◌, ◌<◌, IfOk, map};
ghost use Rattle.cminor_syntax.specs.Trees as T;
ghost use Rattle.cminor_syntax.specs.Views.{expression_tree, optional_tree};
ghost use Rattle.rtlgen_definition.specs.Gen.{statement_needs};
ghost use Rattle.rtlgen_code.specs.Adding.{Adds};
ghost use Rattle.rtlgen_code.specs.Sources.{store_piece, call_piece, put_piece, return_piece};

use crate::{Graph, add_act, add_operand, add_operands, operand_register, operand_registers};
use cminor_syntax::Expression;
use lang_base::{NoMemory, Row};
use rtl_acts::Act;
use rtl_language::Instruction;
use std::alloc::Global;

/// A word that a cell of a global becomes.
pub(crate) fn add_store(
    graph: &mut Graph,
    global: u16,
    index: &Expression,
    word: &Expression,
    temporary: u16,
    next: u16,
) -> Result<u16, NoMemory>
    requires { temporary + statement_needs (T.Store global (expression_tree index.now) (expression_tree word.now)) < 65536 }
    ensures { IfOk result (Adds (store_piece global index.now word.now temporary) next graph.old graph.new) }
{
    let last = add_act(
        graph,
        Act::Store {
            global,
            index: operand_register(index, temporary),
            source: operand_register(word, temporary + 1),
        },
        next,
    )?;
    let second = add_operand(graph, word, temporary + 1, last)?;
    add_operand(graph, index, temporary, second)
}

/// A call on arguments, which gives its word to a variable, if one is named.
pub(crate) fn add_call(
    alloc: Global,
    graph: &mut Graph,
    function: u8,
    target: Option<u16>,
    arguments: &[Expression],
    temporary: u16,
    next: u16,
) -> Result<u16, NoMemory>
    requires { temporary + statement_needs (T.Call function target (map expression_tree arguments.now)) < 65536 }
    ensures { IfOk result (Adds (call_piece function target arguments.now temporary) next graph.old graph.new) }
{
    let registers = operand_registers(alloc, arguments, temporary)?;
    let last = graph.add(Instruction::Call {
        function,
        arguments: Row::from_vec(registers),
        target,
        successor: next,
    })?;
    add_operands(graph, arguments, temporary, last)
}

/// The printing of a word's low eight bits, which a variable gets, if one is named.
pub(crate) fn add_put(
    graph: &mut Graph,
    target: Option<u16>,
    word: &Expression,
    temporary: u16,
    next: u16,
) -> Result<u16, NoMemory>
    requires { temporary + statement_needs (T.Put target (expression_tree word.now)) < 65536 }
    ensures { IfOk result (Adds (put_piece target word.now temporary) next graph.old graph.new) }
{
    let last = add_act(
        graph,
        Act::Put {
            source: operand_register(word, temporary),
            target,
        },
        next,
    )?;
    add_operand(graph, word, temporary, last)
}

/// The end of a function, with a word where there is one.
pub(crate) fn add_return(
    graph: &mut Graph,
    value: &Option<Expression>,
    temporary: u16,
    next: u16,
) -> Result<u16, NoMemory>
    requires { temporary + statement_needs (T.Return (optional_tree expression_tree value.now)) < 65536 }
    ensures { IfOk result (Adds (return_piece value.now temporary) next graph.old graph.new) }
{
    match value {
        None => graph.add(Instruction::Return { value: None }),
        Some(value) => {
            let last = graph.add(Instruction::Return {
                value: Some(operand_register(value, temporary)),
            })?;
            add_operand(graph, value, temporary, last)
        }
    }
}
