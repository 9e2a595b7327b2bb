//! The blocks of operators.

ghost use Rattle.std.specs.Prelude.{◌≡◌};
ghost use Rattle.machine.specs.declared.arguments.Arguments.TheVariants.{One, Two};
ghost use Rattle.native_lowering_definition.specs.Operating.{makes_in_second, makes_with, makes, shifts_tested, shifts, compare, operates};
ghost use Rattle.native_lowering_code.specs.Adding.{Adds};
ghost use Rattle.native_lowering_code.specs.Kinds.{kind_in};

use crate::adding::{add, add_copied};
use crate::dividing::add_division;
use crate::facts::Facts;
use crate::kinds::Kind;
use crate::powers::exponent;
use crate::registers::register_of;
use lang_base::NoMemory;
use machine::Arguments;
use x86_syntax::{Condition, Instruction, Operator, Register, Shifting};

/// B is D, and A is not.
fn add_in_second(out: &mut Vec<Instruction>, op: Operator, d: u8, a: u8) -> Result<(), NoMemory>
    ensures { Adds result (makes_in_second op d a) out.old.items out.new.items }
{
    let (target, source, eax) = (register_of(d), register_of(a), Register::Eax);
    match op {
        Operator::Sub => add(
            out,
            &[
                Instruction::Copy {
                    target: eax,
                    source,
                },
                Instruction::Do {
                    op: Operator::Sub,
                    target: eax,
                    source: target,
                },
                Instruction::Copy {
                    target,
                    source: eax,
                },
            ],
        ),
        Operator::Add | Operator::Mul | Operator::And | Operator::Or | Operator::Xor => {
            add(out, &[Instruction::Do { op, target, source }])
        }
    }
}

/// D becomes what is made of it and a word: a product by 2 ^ k is a shift.
fn made_with(op: Operator, d: u8, word: u32) -> Instruction
    ensures { result ≡ makes_with op d word }
{
    let target = register_of(d);
    match op {
        Operator::Mul => match exponent(word) {
            Some(count) => Instruction::Shift {
                op: Shifting::Shl,
                target,
                count,
            },
            None => Instruction::DoWith { op, target, word },
        },
        Operator::Add | Operator::Sub | Operator::And | Operator::Or | Operator::Xor => {
            Instruction::DoWith { op, target, word }
        }
    }
}

fn add_made(
    out: &mut Vec<Instruction>,
    op: Operator,
    d: u8,
    a: u8,
    b: u8,
    known: Option<u32>,
) -> Result<(), NoMemory>
    ensures { Adds result (makes op d a b known) out.old.items out.new.items }
{
    let (target, source) = (register_of(d), register_of(b));
    match known {
        Some(word) => add_copied(out, d, a, made_with(op, d, word)),
        None => {
            if b == d && a != b {
                add_in_second(out, op, d, a)
            } else {
                add_copied(out, d, a, Instruction::Do { op, target, source })
            }
        }
    }
}

fn add_shift_tested(
    out: &mut Vec<Instruction>,
    op: Shifting,
    d: u8,
    a: u8,
    b: u8,
) -> Result<(), NoMemory>
    ensures { Adds result (shifts_tested op d a b) out.old.items out.new.items }
{
    let (eax, ecx) = (Register::Eax, Register::Ecx);
    let (target, left, count) = (register_of(d), register_of(a), register_of(b));
    add(
        out,
        &[
            Instruction::CompareWith {
                left: count,
                word: 32,
            },
            Instruction::StopIf {
                condition: Condition::AboveOrEqual,
            },
            Instruction::Copy {
                target: ecx,
                source: count,
            },
            Instruction::Copy {
                target: eax,
                source: left,
            },
            Instruction::ShiftBy { op, target: eax },
            Instruction::Copy {
                target,
                source: eax,
            },
        ],
    )
}

fn add_shift(
    out: &mut Vec<Instruction>,
    op: Shifting,
    d: u8,
    a: u8,
    b: u8,
    known: Option<u32>,
) -> Result<(), NoMemory>
    ensures { Adds result (shifts op d a b known) out.old.items out.new.items }
{
    match known {
        None => add_shift_tested(out, op, d, a, b),
        Some(count) => {
            if count < 32 {
                let target = register_of(d);
                add_copied(out, d, a, Instruction::Shift { op, target, count })
            } else {
                add_shift_tested(out, op, d, a, b)
            }
        }
    }
}

/// Compares A with B, or with the word that B is known to be.
pub fn compare(a: u8, b: u8, known: Option<u32>) -> Instruction
    ensures { result ≡ compare a b known }
{
    let left = register_of(a);
    match known {
        None => Instruction::Compare {
            left,
            right: register_of(b),
        },
        Some(word) => Instruction::CompareWith { left, word },
    }
}

fn add_of_one(
    out: &mut Vec<Instruction>,
    kind: Kind,
    d: u8,
    a: u8,
    facts: &Facts,
) -> Result<(), NoMemory>
    ensures { Adds result (operates (kind_in kind) d (One a) facts.now) out.old.items out.new.items }
{
    let (target, left) = (register_of(d), register_of(a));
    match kind {
        Kind::Turns(op) => add_copied(out, d, a, Instruction::Turn { op, target }),
        Kind::AsksZero => add(
            out,
            &[
                Instruction::CompareWith { left, word: 0 },
                Instruction::Flag {
                    condition: Condition::Equal,
                    target,
                },
            ],
        ),
        Kind::Makes(_) => add(out, &[Instruction::Stop]),
        Kind::Shifts(_) => add(out, &[Instruction::Stop]),
        Kind::Divides(_, _) => add(out, &[Instruction::Stop]),
        Kind::Compares(_) => add(out, &[Instruction::Stop]),
    }
}

fn add_of_two(
    out: &mut Vec<Instruction>,
    kind: Kind,
    d: u8,
    a: u8,
    b: u8,
    facts: &Facts,
) -> Result<(), NoMemory>
    ensures { Adds result (operates (kind_in kind) d (Two a b) facts.now) out.old.items out.new.items }
{
    let known = facts.known(b);
    match kind {
        Kind::Makes(op) => add_made(out, op, d, a, b, known),
        Kind::Shifts(op) => add_shift(out, op, d, a, b, known),
        Kind::Divides(signed, quotient) => add_division(out, signed, quotient, d, a, b, known),
        Kind::Compares(condition) => {
            let target = register_of(d);
            let flag = Instruction::Flag { condition, target };
            add(out, &[compare(a, b, known), flag])
        }
        Kind::Turns(_) => add(out, &[Instruction::Stop]),
        Kind::AsksZero => add(out, &[Instruction::Stop]),
    }
}

/// The block of an operator with so many arguments.
pub fn add_operator(
    out: &mut Vec<Instruction>,
    kind: Kind,
    d: u8,
    arguments: Arguments,
    facts: &Facts,
) -> Result<(), NoMemory>
    ensures { Adds result (operates (kind_in kind) d arguments facts.now) out.old.items out.new.items }
{
    match arguments {
        Arguments::One(a) => add_of_one(out, kind, d, a, facts),
        Arguments::Two(a, b) => add_of_two(out, kind, d, a, b, facts),
    }
}
