//! Why a step has no answer.

ghost use Rattle.std.specs.Prelude.{◌≡◌, None, slice_get, slice_index_or};
ghost use Rattle.linear_faults.specs.Causes.{cause_of_load, cause_of_call};
ghost use Rattle.linear_faults_search.specs.Causing.{OfAct, OfBranch, OfOperator, OfReturn, OfStore, IsCauseAt, IsCause};

use ints::Op;
use lang_base::Named;
use linear_faults::Cause;
use linear_faults_run::{Run, read};
use linear_language::{Function, Instruction};
use locations::Register;
use machine::{Act, Arguments};

/// Why an operator has no answer.
fn of_operator(op: Op, arguments: Arguments, registers: &[Option<u32>]) -> Cause
    ensures { OfOperator result op arguments registers.now }
{
    match arguments {
        Arguments::One(first) => match read(registers, usize::from(first)) {
            None => Cause::Undefined(first),
            Some(x) => Cause::One(op, x),
        },
        Arguments::Two(first, second) => match (
            read(registers, usize::from(first)),
            read(registers, usize::from(second)),
        ) {
            (None, _) => Cause::Undefined(first),
            (Some(_), None) => Cause::Undefined(second),
            (Some(x), Some(y)) => Cause::Two(op, x, y),
        },
    }
}

/// Why no cell is read.
fn of_load(global: u16, index: Register, registers: &[Option<u32>]) -> Cause
    ensures { result ≡ cause_of_load global index (slice_index_or registers.now index None) }
{
    match read(registers, usize::from(index)) {
        None => Cause::Undefined(index),
        Some(cell) => Cause::Past(global, cell),
    }
}

/// Why no cell is written.
fn of_store(global: u16, index: Register, source: Register, registers: &[Option<u32>]) -> Cause
    ensures { OfStore result global index source registers.now }
{
    match (
        read(registers, usize::from(index)),
        read(registers, usize::from(source)),
    ) {
        (None, _) => Cause::Undefined(index),
        (Some(_), None) => Cause::Undefined(source),
        (Some(cell), Some(_)) => Cause::Past(global, cell),
    }
}

fn of_act(act: Act, registers: &[Option<u32>]) -> Cause
    ensures { OfAct result act registers.now }
{
    match act {
        Act::Constant { .. } => Cause::NoInstruction,
        Act::Operate { op, arguments, .. } => of_operator(op, arguments, registers),
        Act::Load { global, index, .. } => of_load(global, index, registers),
        Act::Store {
            global,
            index,
            source,
        } => of_store(global, index, source, registers),
        Act::Put { source, .. } => Cause::Undefined(source),
    }
}

/// Why a branch goes nowhere: a word is not there, or else the label.
fn of_branch(label: u16, arguments: Arguments, registers: &[Option<u32>]) -> Cause
    ensures { OfBranch result label arguments registers.now }
{
    match arguments {
        Arguments::One(first) => match read(registers, usize::from(first)) {
            None => Cause::Undefined(first),
            Some(_) => Cause::NoLabel(label),
        },
        Arguments::Two(first, second) => match (
            read(registers, usize::from(first)),
            read(registers, usize::from(second)),
        ) {
            (None, _) => Cause::Undefined(first),
            (Some(_), None) => Cause::Undefined(second),
            (Some(_), Some(_)) => Cause::NoLabel(label),
        },
    }
}

fn of_return(value: Option<Register>, registers: &[Option<u32>]) -> Cause
    ensures { OfReturn result value registers.now }
{
    match value {
        None => Cause::NoResult,
        Some(register) => match read(registers, usize::from(register)) {
            None => Cause::Undefined(register),
            Some(_) => Cause::NoResult,
        },
    }
}

fn of_call(functions: &[Named<Function>], function: u8, count: usize) -> Cause
    ensures { result ≡ cause_of_call function count (slice_get functions.now function) }
{
    match functions.get(usize::from(function)) {
        None => Cause::NoFunction(function),
        Some(_) => Cause::OtherArguments(function, count),
    }
}

fn of_instruction(
    functions: &[Named<Function>],
    instruction: &Instruction,
    registers: &[Option<u32>],
) -> Cause
    ensures { IsCauseAt result functions.now instruction.now registers.now }
{
    match instruction {
        Instruction::Do { act } => of_act(*act, registers),
        Instruction::Copy { .. } => Cause::NoInstruction,
        Instruction::Call {
            function,
            arguments,
            ..
        } => of_call(functions, *function, arguments.len()),
        Instruction::Branch { test, label } => of_branch(*label, test.arguments, registers),
        Instruction::Return { value } => of_return(*value, registers),
        Instruction::Label { .. } => Cause::NoInstruction,
        Instruction::Goto { label } => Cause::NoLabel(*label),
    }
}

/// Why the step from where a run stands has no answer.
pub(crate) fn cause_of(functions: &[Named<Function>], run: &Run) -> Cause
    ensures { IsCause result functions.now run.now }
{
    let Some(named) = functions.get(run.function) else {
        return Cause::NoMain;
    };
    match named.function.code().as_slice().get(run.place) {
        None => Cause::NoInstruction,
        Some(instruction) => of_instruction(functions, instruction, &run.words.registers),
    }
}
