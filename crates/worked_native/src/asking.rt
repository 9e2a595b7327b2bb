//! A program of one function that an operator is asked by, and its run.

use crate::codes::{FIRST, compared, divided, made, shifted, turned};
use lang_base::{Named, Program, Row};
use std::alloc::Global;
use worked_row_files::{fine, some};
use x86::run;
use x86_state::Shown;
use x86_syntax::{Function, Instruction, Register};

/// How many steps it takes at most.
const STEPS: u64 = 20;

fn set(target: Register, word: u32) -> Instruction {
    Instruction::Set { target, word }
}

fn copy(target: Register, source: Register) -> Instruction {
    Instruction::Copy { target, source }
}

/// The instructions that bring the result to eax, where an operator has this name.
fn push_asked(out: &mut Vec<Instruction>, name: &str, y: u32) -> Option<()> {
    let (eax, edx) = (Register::Eax, Register::Edx);
    if let Some(instruction) = made(name, y).or(turned(name)).or(shifted(name, y)) {
        return out.extend_from_slice(&[instruction, copy(eax, FIRST)]).ok();
    }
    if let Some((compare, condition)) = compared(name, y) {
        let target = FIRST;
        let flag = Instruction::Flag { condition, target };
        return out
            .extend_from_slice(&[compare, flag, copy(eax, target)])
            .ok();
    }
    if let Some((divide, from)) = divided(name) {
        let high = if name.starts_with('i') {
            Instruction::Extend
        } else {
            set(edx, 0)
        };
        return out
            .extend_from_slice(&[copy(eax, FIRST), high, divide, copy(eax, from)])
            .ok();
    }
    if name == "cltd" {
        return out
            .extend_from_slice(&[copy(eax, FIRST), Instruction::Extend, copy(eax, edx)])
            .ok();
    }
    None
}

/// What the interpreter of the model makes of two words.
pub(crate) fn ask(alloc: Global, name: &str, x: u32, y: u32) -> Option<u32> {
    let mut code = Vec::new(alloc);
    let words = [set(FIRST, x), set(Register::R9d, y), set(Register::Ecx, y)];
    fine!(code.extend_from_slice(&words));
    some!(push_asked(&mut code, name, y));
    fine!(code.push(Instruction::Return));
    let function = Function {
        parameters: 0,
        code: Row::from_vec(code),
    };
    let name = Row::from_vec(fine!(Vec::from_slice(alloc, b"main")));
    let mut functions = Vec::new(alloc);
    fine!(functions.push(Named { name, function }));
    let program = Program {
        globals: Row::from_vec(Vec::new(alloc)),
        functions: Row::from_vec(functions),
    };
    match fine!(run(alloc, &program, &[7], None, STEPS)).shown {
        Shown::Ended(word) => Some(word),
        Shown::Running | Shown::Wrong | Shown::Full | Shown::Stuck => None,
    }
}
