//! Arguments, whose values go to their registers, one temporary behind the other.

ghost use Rattle.std.specs.Prelude.{◌≡◌, ◌+◌, ◌<◌, ◌++◌, IfOk, OnOk, map};
ghost use Rattle.cminor_syntax.specs.Views.{expression_tree};
ghost use Rattle.rtlgen_definition.specs.Gen.{operands_need};
ghost use Rattle.rtlgen_code.specs.Adding.{Adds};
ghost use Rattle.rtlgen_code.specs.Sources.{operands_piece, operand_registers_of};

use crate::expressions::{add_operand, operand_register};
use crate::graph::Graph;
use cminor_syntax::Expression;
use lang_base::NoMemory;
use std::alloc::Global;

/// The registers where arguments stand, from this temporary on. It calls itself once for each argument.
fn push_operand_registers(
    registers: &mut Vec<u16>,
    arguments: &[Expression],
    temporary: u16,
) -> Result<(), NoMemory>
    requires { temporary + operands_need (map expression_tree arguments.now) < 65536 }
    ensures { OnOk result (registers.new.items ≡ registers.old.items ++ operand_registers_of arguments.now temporary) }
{
    match arguments {
        [] => Ok(()),
        [first, rest @ ..] => {
            registers.push(operand_register(first, temporary))?;
            push_operand_registers(registers, rest, temporary + 1)
        }
    }
}

/// The registers where arguments stand, from this temporary on.
pub fn operand_registers(
    alloc: Global,
    arguments: &[Expression],
    temporary: u16,
) -> Result<Vec<u16>, NoMemory>
    requires { temporary + operands_need (map expression_tree arguments.now) < 65536 }
    ensures { IfOk result (λ registers. registers.items ≡ operand_registers_of arguments.now temporary) }
{
    let mut registers = Vec::new(alloc);
    push_operand_registers(&mut registers, arguments, temporary)?;
    Ok(registers)
}

/// The operands, of which the last is added first. It calls itself once for each argument.
pub fn add_operands(
    graph: &mut Graph,
    arguments: &[Expression],
    temporary: u16,
    next: u16,
) -> Result<u16, NoMemory>
    requires { temporary + operands_need (map expression_tree arguments.now) < 65536 }
    ensures { IfOk result (λ entry. Adds (operands_piece arguments.now temporary) next graph.old graph.new entry) }
{
    match arguments {
        [] => Ok(next),
        [first, rest @ ..] => {
            let behind = add_operands(graph, rest, temporary + 1, next)?;
            add_operand(graph, first, temporary, behind)
        }
    }
}
