//! What each operator and each condition becomes.

ghost use Rattle.std.specs.Prelude.{◌≡◌};
ghost use Rattle.native_lowering_definition.specs.Kinds.{kind_of, condition_of};
ghost use Rattle.native_lowering_code.specs.Kinds.{kind_in};

use ints::{Cond, Op};
use x86_syntax::{Condition, Operator, Shifting, Turning};

/// What native code does for an operator.
#[derive(Clone, Copy)]
pub enum Kind {
    Turns(Turning),
    Makes(Operator),
    Shifts(Shifting),
    /// Whether the words are read as signed, and whether the quotient is wanted, or the rest.
    Divides(bool, bool),
    Compares(Condition),
    AsksZero,
}

pub fn kind_of(op: Op) -> Kind
    ensures { kind_in result ≡ kind_of op }
{
    match op {
        Op::NegS => Kind::Turns(Turning::Neg),
        Op::NegU => Kind::Turns(Turning::Neg),
        Op::Not => Kind::Turns(Turning::Not),
        Op::IsZero => Kind::AsksZero,
        Op::AddS => Kind::Makes(Operator::Add),
        Op::AddU => Kind::Makes(Operator::Add),
        Op::SubS => Kind::Makes(Operator::Sub),
        Op::SubU => Kind::Makes(Operator::Sub),
        Op::MulS => Kind::Makes(Operator::Mul),
        Op::MulU => Kind::Makes(Operator::Mul),
        Op::DivS => Kind::Divides(true, true),
        Op::DivU => Kind::Divides(false, true),
        Op::ModS => Kind::Divides(true, false),
        Op::ModU => Kind::Divides(false, false),
        Op::And => Kind::Makes(Operator::And),
        Op::Or => Kind::Makes(Operator::Or),
        Op::Xor => Kind::Makes(Operator::Xor),
        Op::ShlS => Kind::Shifts(Shifting::Shl),
        Op::ShlU => Kind::Shifts(Shifting::Shl),
        Op::ShrS => Kind::Shifts(Shifting::Sar),
        Op::ShrU => Kind::Shifts(Shifting::Shr),
        Op::Eq => Kind::Compares(Condition::Equal),
        Op::Ne => Kind::Compares(Condition::NotEqual),
        Op::LtS => Kind::Compares(Condition::Less),
        Op::LtU => Kind::Compares(Condition::Below),
        Op::LeS => Kind::Compares(Condition::LessOrEqual),
        Op::LeU => Kind::Compares(Condition::BelowOrEqual),
    }
}

pub fn condition_of(condition: Cond) -> Condition
    ensures { result ≡ condition_of condition }
{
    match condition {
        Cond::Nz => Condition::NotEqual,
        Cond::Eq => Condition::Equal,
        Cond::Ne => Condition::NotEqual,
        Cond::LtS => Condition::Less,
        Cond::LtU => Condition::Below,
        Cond::LeS => Condition::LessOrEqual,
        Cond::LeU => Condition::BelowOrEqual,
    }
}
