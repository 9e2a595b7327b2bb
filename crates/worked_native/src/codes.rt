//! The instruction that an operator is, with r8d for the first word and r9d for the second; the result is in r8d.

use worked_row_files::some;
use x86_syntax::{Condition, Instruction, Operator, Register, Shifting, Turning};

pub(crate) const FIRST: Register = Register::R8d;

const SECOND: Register = Register::R9d;

fn operator_of(name: &str) -> Option<Operator> {
    match name {
        "add" | "addw" => Some(Operator::Add),
        "sub" | "subw" => Some(Operator::Sub),
        "imul" | "imulw" => Some(Operator::Mul),
        "and" | "andw" => Some(Operator::And),
        "or" | "orw" => Some(Operator::Or),
        "xor" | "xorw" => Some(Operator::Xor),
        _ => None,
    }
}

fn shift_of(name: &str) -> Option<Shifting> {
    match name {
        "shl" | "shlb" => Some(Shifting::Shl),
        "shr" | "shrb" => Some(Shifting::Shr),
        "sar" | "sarb" => Some(Shifting::Sar),
        _ => None,
    }
}

fn condition_of(name: &str) -> Option<Condition> {
    match name {
        "e" | "ew" => Some(Condition::Equal),
        "ne" | "new" => Some(Condition::NotEqual),
        "l" | "lw" => Some(Condition::Less),
        "le" | "lew" => Some(Condition::LessOrEqual),
        "b" | "bw" => Some(Condition::Below),
        "be" | "bew" => Some(Condition::BelowOrEqual),
        "ae" | "aew" => Some(Condition::AboveOrEqual),
        _ => None,
    }
}

/// Of two words, where the name ends in `w` of one and a constant.
pub(crate) fn made(name: &str, word: u32) -> Option<Instruction> {
    let op = some!(operator_of(name));
    let (target, source) = (FIRST, SECOND);
    Some(if name.ends_with('w') {
        Instruction::DoWith { op, target, word }
    } else {
        Instruction::Do { op, target, source }
    })
}

/// By a constant; where the name ends in `b`, by ecx.
pub(crate) fn shifted(name: &str, count: u32) -> Option<Instruction> {
    let (op, target) = (some!(shift_of(name)), FIRST);
    Some(if name.ends_with('b') {
        Instruction::ShiftBy { op, target }
    } else {
        Instruction::Shift { op, target, count }
    })
}

pub(crate) fn turned(name: &str) -> Option<Instruction> {
    let target = FIRST;
    match name {
        "neg" => Some(Instruction::Turn {
            op: Turning::Neg,
            target,
        }),
        "not" => Some(Instruction::Turn {
            op: Turning::Not,
            target,
        }),
        _ => None,
    }
}

/// The division that a name means, and where its result is.
pub(crate) fn divided(name: &str) -> Option<(Instruction, Register)> {
    let divisor = SECOND;
    match name {
        "idiv" => Some((Instruction::Divide { divisor }, Register::Eax)),
        "irem" => Some((Instruction::Divide { divisor }, Register::Edx)),
        "div" => Some((Instruction::DivideU { divisor }, Register::Eax)),
        "rem" => Some((Instruction::DivideU { divisor }, Register::Edx)),
        _ => None,
    }
}

/// The comparison of the words, or of one and a constant, and the condition that is asked.
pub(crate) fn compared(name: &str, word: u32) -> Option<(Instruction, Condition)> {
    let condition = some!(condition_of(name));
    let (left, right) = (FIRST, SECOND);
    let compare = if name.ends_with('w') {
        Instruction::CompareWith { left, word }
    } else {
        Instruction::Compare { left, right }
    };
    Some((compare, condition))
}
