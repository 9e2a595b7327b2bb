//! How the term of an operator on two operands is made.

ghost use Rattle.std.specs.Prelude.{◌≡◌};
ghost use Rattle.c_program.specs.Trees.{TermTree};
ghost use Rattle.c_checker_rules.specs.Terms.{binary_term};
ghost use Rattle.c_checker_terms.specs.Ways.{made};

use crate::typed::{by_type, common};
use c_syntax::{BinaryOperator, IntegerType};
use ints::Op;

/// How a term is made of those of two operands.
#[derive(Clone, Copy)]
pub(crate) enum Way {
    /// An operator of the tables on both.
    Applied(Op),
    /// An operator of the tables on the right one and the left one.
    Swapped(Op),
    /// `||`.
    Either,
    /// `&&`.
    Both,
}

/// The way of an operator on operands of these types (C99 6.5.5 to 6.5.14).
pub(crate) fn way_of(operator: BinaryOperator, kinds: (IntegerType, IntegerType)) -> Way
    ensures { (a b : TermTree) → made result a b ≡ binary_term operator kinds.0 kinds.1 a b }
{
    let kind = common(kinds.0, kinds.1);
    let shifted = kinds.0;
    match operator {
        BinaryOperator::LogicalOr => Way::Either,
        BinaryOperator::LogicalAnd => Way::Both,
        BinaryOperator::Or => Way::Applied(Op::Or),
        BinaryOperator::Xor => Way::Applied(Op::Xor),
        BinaryOperator::And => Way::Applied(Op::And),
        BinaryOperator::Equal => Way::Applied(Op::Eq),
        BinaryOperator::NotEqual => Way::Applied(Op::Ne),
        BinaryOperator::Less => Way::Applied(by_type(kind, Op::LtS, Op::LtU)),
        BinaryOperator::Greater => Way::Swapped(by_type(kind, Op::LtS, Op::LtU)),
        BinaryOperator::LessEqual => Way::Applied(by_type(kind, Op::LeS, Op::LeU)),
        BinaryOperator::GreaterEqual => Way::Swapped(by_type(kind, Op::LeS, Op::LeU)),
        BinaryOperator::ShiftLeft => Way::Applied(by_type(shifted, Op::ShlS, Op::ShlU)),
        BinaryOperator::ShiftRight => Way::Applied(by_type(shifted, Op::ShrS, Op::ShrU)),
        BinaryOperator::Add => Way::Applied(by_type(kind, Op::AddS, Op::AddU)),
        BinaryOperator::Subtract => Way::Applied(by_type(kind, Op::SubS, Op::SubU)),
        BinaryOperator::Multiply => Way::Applied(by_type(kind, Op::MulS, Op::MulU)),
        BinaryOperator::Divide => Way::Applied(by_type(kind, Op::DivS, Op::DivU)),
        BinaryOperator::Remainder => Way::Applied(by_type(kind, Op::ModS, Op::ModU)),
    }
}
