//! Readers of the parts of a function. Each is one function on lists, which says the value and the
//! bytes behind it, or the first fault.

ghost use Rattle.lang_base.specs.Reading.{IsRead, Reads, items_of};
ghost use Rattle.rtl_acts.specs.Reading.{register};
ghost use Rattle.rtl_language.specs.Reading.{call_arguments, call, branch, plain, instruction, nodes, graph, parts, function};

use crate::function::Function;
use crate::instruction::Instruction;
use lang_base::{FormError, Row, read_byte};
use lang_helpers::{ReadOne, are_bytes, read_ends, read_function_number, read_node, read_so_many};
use rtl_acts::{Register, read_act, read_frame, read_register, read_target, read_test};
use std::alloc::Global;

/// Reads registers of so many.
#[derive(Drop)]
struct Registers {
    registers: u32,
}

impl ReadOne for Registers {
    type Item = Register;

    ghost part = { λ reader _. register reader.registers };

    fn read(
        &mut self,
        _alloc: Global,
        _before: &[Register],
        bytes: &mut &[u8],
    ) -> Result<Register, FormError> {
        read_register(self.registers, bytes)
    }
}

/// The number of a call's arguments, and the arguments.
#[tactic(auto, unfolding(crate::specs::Reading::call_arguments))]
fn read_call_arguments(
    alloc: Global,
    registers: u32,
    bytes: &mut &[u8],
) -> Result<Row<Register>, FormError>
    ensures { Reads (call_arguments registers bytes.old.now) result bytes.new.now }
{
    let count = read_byte(bytes)?;
    let arguments = read_so_many(alloc, Registers { registers }, u32::from(count), bytes)?;
    Ok(Row::from_vec(arguments))
}

#[tactic(auto, unfolding(crate::specs::Reading::call))]
fn read_call(
    alloc: Global,
    registers: u32,
    nodes: u32,
    bytes: &mut &[u8],
) -> Result<Instruction, FormError>
    ensures { Reads (call registers nodes bytes.old.now) result bytes.new.now }
{
    let function = read_function_number(bytes)?;
    let arguments = read_call_arguments(alloc, registers, bytes)?;
    let target = read_target(registers, bytes)?;
    let successor = read_node(nodes, bytes)?;
    Ok(Instruction::Call {
        function,
        arguments,
        target,
        successor,
    })
}

#[tactic(auto, unfolding(crate::specs::Reading::branch))]
fn read_branch(registers: u32, nodes: u32, bytes: &mut &[u8]) -> Result<Instruction, FormError>
    ensures { IsRead (branch registers nodes bytes.old.now) result bytes.new.now }
{
    let test = read_test(registers, bytes)?;
    let taken = read_node(nodes, bytes)?;
    let other = read_node(nodes, bytes)?;
    Ok(Instruction::Branch { test, taken, other })
}

/// What follows the code of a plain instruction; no other code is one.
#[tactic(auto, unfolding(crate::specs::Reading::plain))]
fn read_plain(
    registers: u32,
    nodes: u32,
    code: u8,
    bytes: &mut &[u8],
) -> Result<Instruction, FormError>
    ensures { IsRead (plain registers nodes code bytes.old.now) result bytes.new.now }
{
    let act = read_act(registers, code, bytes)?;
    let successor = read_node(nodes, bytes)?;
    Ok(Instruction::Do { act, successor })
}

/// An instruction among so many registers and nodes.
#[tactic(auto, unfolding(crate::specs::Reading::instruction))]
fn read_instruction(
    alloc: Global,
    registers: u32,
    nodes: u32,
    bytes: &mut &[u8],
) -> Result<Instruction, FormError>
    ensures { Reads (instruction registers nodes bytes.old.now) result bytes.new.now }
{
    match read_byte(bytes)? {
        6 => read_call(alloc, registers, nodes, bytes),
        8 => read_branch(registers, nodes, bytes),
        9 => Ok(Instruction::Return {
            value: read_target(registers, bytes)?,
        }),
        code => read_plain(registers, nodes, code, bytes),
    }
}

/// Reads instructions among so many registers and nodes.
#[derive(Drop)]
struct Instructions {
    registers: u32,
    nodes: u32,
}

impl ReadOne for Instructions {
    type Item = Instruction;

    ghost part = { λ reader _. instruction reader.registers reader.nodes };

    fn read(
        &mut self,
        alloc: Global,
        _before: &[Instruction],
        bytes: &mut &[u8],
    ) -> Result<Instruction, FormError> {
        read_instruction(alloc, self.registers, self.nodes, bytes)
    }
}

/// As many instructions as there are nodes.
#[tactic(auto, unfolding(crate::specs::Reading::nodes))]
fn read_nodes(
    alloc: Global,
    registers: u32,
    count: u32,
    bytes: &mut &[u8],
) -> Result<Vec<Instruction>, FormError>
    ensures { Reads (nodes registers count bytes.old.now) (items_of result) bytes.new.now }
{
    let reader = Instructions {
        registers,
        nodes: count,
    };
    read_so_many(alloc, reader, count, bytes)
}

/// The entry and the nodes.
#[tactic(auto, unfolding(crate::specs::Reading::graph))]
fn read_graph(
    alloc: Global,
    registers: u16,
    bytes: &mut &[u8],
) -> Result<(u16, Row<Instruction>), FormError>
    ensures { Reads (graph registers bytes.old.now) result bytes.new.now }
{
    let (entry, count) = read_ends(bytes)?;
    let nodes = read_nodes(alloc, u32::from(registers), u32::from(count), bytes)?;
    Ok((entry, Row::from_vec(nodes)))
}

/// The parameters, the number of registers, and the graph.
#[tactic(auto, unfolding(crate::specs::Reading::parts))]
fn read_parts(
    alloc: Global,
    bytes: &mut &[u8],
) -> Result<((Row<Register>, u16), (u16, Row<Instruction>)), FormError>
    ensures { Reads (parts bytes.old.now) result bytes.new.now }
{
    let frame = read_frame(alloc, bytes)?;
    let graph = read_graph(alloc, frame.1, bytes)?;
    Ok((frame, graph))
}

/// A function, its tag first.
#[tactic(auto, unfolding(crate::specs::Reading::function))]
pub fn read_function(alloc: Global, bytes: &mut &[u8]) -> Result<Function, FormError>
    ensures { Reads (function bytes.old.now) result bytes.new.now }
{
    are_bytes(bytes);
    if read_byte(bytes)? != 2 {
        return Err(FormError::BadTag);
    }
    let ((parameters, registers), (entry, nodes)) = read_parts(alloc, bytes)?;
    Ok(Function::new(parameters, registers, entry, nodes))
}
