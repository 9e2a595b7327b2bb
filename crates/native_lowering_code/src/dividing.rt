//! The blocks of divisions.

ghost use Rattle.std.specs.Prelude.{◌≡◌, ◌<◌};
ghost use Rattle.native_lowering_definition.specs.Operating.{divisor_tested, divisor_tested_signed, divisor, divided_in, divides_unsigned_by_power, rounds, divides_signed_by_power, divides_by_power, divides};
ghost use Rattle.native_lowering_code.specs.Adding.{Adds};
ghost use Rattle.native_lowering_code.specs.Dividing.{divided};

use crate::adding::{add, add_copied};
use crate::powers::power_known;
use crate::registers::register_of;
use lang_base::NoMemory;
use x86_syntax::{Condition, Instruction, Operator, Register, Shifting, Turning};

fn add_tested(out: &mut Vec<Instruction>, b: u8) -> Result<(), NoMemory>
    ensures { Adds result (divisor_tested b) out.old.items out.new.items }
{
    let right = register_of(b);
    add(
        out,
        &[
            Instruction::CompareWith {
                left: right,
                word: 0,
            },
            Instruction::StopIf {
                condition: Condition::Equal,
            },
            Instruction::Copy {
                target: Register::Ecx,
                source: right,
            },
        ],
    )
}

fn add_tested_signed(out: &mut Vec<Instruction>, a: u8, b: u8) -> Result<(), NoMemory>
    ensures { Adds result (divisor_tested_signed a b) out.old.items out.new.items }
{
    let (ecx, edx) = (Register::Ecx, Register::Edx);
    let (left, right) = (register_of(a), register_of(b));
    let stop = Instruction::StopIf {
        condition: Condition::Equal,
    };
    let divisor = Instruction::Copy {
        target: ecx,
        source: right,
    };
    add(
        out,
        &[
            Instruction::CompareWith {
                left: right,
                word: 0,
            },
            stop,
            Instruction::Copy {
                target: ecx,
                source: left,
            },
            Instruction::DoWith {
                op: Operator::Xor,
                target: ecx,
                word: 0x8000_0000,
            },
            Instruction::Copy {
                target: edx,
                source: right,
            },
            Instruction::Turn {
                op: Turning::Not,
                target: edx,
            },
            Instruction::Do {
                op: Operator::Or,
                target: ecx,
                source: edx,
            },
            stop,
            divisor,
        ],
    )
}

/// The divisor goes to ecx; it is set there where it is known, and no division by it fails.
fn add_divisor(
    out: &mut Vec<Instruction>,
    signed: bool,
    a: u8,
    b: u8,
    known: Option<u32>,
) -> Result<(), NoMemory>
    ensures { Adds result (divisor signed a b known) out.old.items out.new.items }
{
    let target = Register::Ecx;
    match known {
        None => {
            if signed {
                add_tested_signed(out, a, b)
            } else {
                add_tested(out, b)
            }
        }
        Some(word) => {
            if signed {
                if word == 0 || word == u32::MAX {
                    add_tested_signed(out, a, b)
                } else {
                    add(out, &[Instruction::Set { target, word }])
                }
            } else if word == 0 {
                add_tested(out, b)
            } else {
                add(out, &[Instruction::Set { target, word }])
            }
        }
    }
}

/// The register of the quotient, or of the rest.
fn divided_in(quotient: bool) -> Register
    ensures { result ≡ divided_in quotient }
{
    if quotient {
        Register::Eax
    } else {
        Register::Edx
    }
}

/// D becomes the quotient of A and ecx, or the rest.
fn add_divided(
    out: &mut Vec<Instruction>,
    signed: bool,
    quotient: bool,
    d: u8,
    a: u8,
) -> Result<(), NoMemory>
    ensures { Adds result (divided signed quotient d a) out.old.items out.new.items }
{
    let divisor = Register::Ecx;
    let first = Instruction::Copy {
        target: Register::Eax,
        source: register_of(a),
    };
    let last = Instruction::Copy {
        target: register_of(d),
        source: divided_in(quotient),
    };
    if signed {
        let divide = Instruction::Divide { divisor };
        return add(out, &[first, Instruction::Extend, divide, last]);
    }
    let high = Instruction::Set {
        target: Register::Edx,
        word: 0,
    };
    add(out, &[first, high, Instruction::DivideU { divisor }, last])
}

/// D becomes the quotient of A and 2 ^ k, or the rest, all read as unsigned.
fn add_unsigned_by_power(
    out: &mut Vec<Instruction>,
    quotient: bool,
    d: u8,
    a: u8,
    k: u32,
) -> Result<(), NoMemory>
    requires { k < 32 }
    ensures { Adds result (divides_unsigned_by_power quotient d a k) out.old.items out.new.items }
{
    let target = register_of(d);
    if quotient {
        let (op, count) = (Shifting::Shr, k);
        add_copied(out, d, a, Instruction::Shift { op, target, count })
    } else {
        let (op, word) = (Operator::And, (1 << k) - 1);
        add_copied(out, d, a, Instruction::DoWith { op, target, word })
    }
}

/// A goes to eax, so that a shift by k rounds toward 0; edx keeps what was added.
fn add_rounded(out: &mut Vec<Instruction>, a: u8, k: u32) -> Result<(), NoMemory>
    requires { k < 32 }
    ensures { Adds result (rounds a k) out.old.items out.new.items }
{
    let (eax, edx) = (Register::Eax, Register::Edx);
    let (sign, word) = (edx, (1 << k) - 1);
    add(
        out,
        &[
            Instruction::Copy {
                target: eax,
                source: register_of(a),
            },
            Instruction::Extend,
            Instruction::DoWith {
                op: Operator::And,
                target: sign,
                word,
            },
            Instruction::Do {
                op: Operator::Add,
                target: eax,
                source: edx,
            },
        ],
    )
}

/// D becomes the quotient of A and 2 ^ k, or the rest, all read as signed.
fn add_signed_by_power(
    out: &mut Vec<Instruction>,
    quotient: bool,
    d: u8,
    a: u8,
    k: u32,
) -> Result<(), NoMemory>
    requires { k < 32 }
    ensures { Adds result (divides_signed_by_power quotient d a k) out.old.items out.new.items }
{
    let target = Register::Eax;
    let last = Instruction::Copy {
        target: register_of(d),
        source: target,
    };
    add_rounded(out, a, k)?;
    if quotient {
        let (op, count) = (Shifting::Sar, k);
        return add(out, &[Instruction::Shift { op, target, count }, last]);
    }
    let (mask, word, source) = (Operator::And, (1 << k) - 1, Register::Edx);
    let masked = Instruction::DoWith {
        op: mask,
        target,
        word,
    };
    let op = Operator::Sub;
    add(out, &[masked, Instruction::Do { op, target, source }, last])
}

fn add_divided_by_power(
    out: &mut Vec<Instruction>,
    signed: bool,
    quotient: bool,
    d: u8,
    a: u8,
    k: u32,
) -> Result<(), NoMemory>
    requires { k < 32 }
    ensures { Adds result (divides_by_power signed quotient d a k) out.old.items out.new.items }
{
    if signed {
        add_signed_by_power(out, quotient, d, a, k)
    } else {
        add_unsigned_by_power(out, quotient, d, a, k)
    }
}

pub(crate) fn add_division(
    out: &mut Vec<Instruction>,
    signed: bool,
    quotient: bool,
    d: u8,
    a: u8,
    b: u8,
    known: Option<u32>,
) -> Result<(), NoMemory>
    ensures { Adds result (divides signed quotient d a b known) out.old.items out.new.items }
{
    match power_known(known, signed) {
        Some(k) => add_divided_by_power(out, signed, quotient, d, a, k),
        None => {
            add_divisor(out, signed, a, b, known)?;
            add_divided(out, signed, quotient, d, a)
        }
    }
}
