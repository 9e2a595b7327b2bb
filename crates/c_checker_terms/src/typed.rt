//! Terms with the types of the expressions that they stand for.

ghost use Rattle.std.specs.Prelude.{◌≡◌, IfOk};
ghost use Rattle.c_program.specs.Trees as P;
ghost use Rattle.c_program.specs.Views.{term_tree};
ghost use Rattle.c_checker_rules.specs.Types.{common, unary_type, binary_type};
ghost use Rattle.c_checker_rules.specs.Terms.{by_type, unary_term, binary_term};
ghost use Rattle.c_checker_terms.specs.Sources.{binary_tree, choice_tree};

use crate::ways::{Way, way_of};
use c_program::Term;
use c_syntax::{BinaryOperator, IntegerType, UnaryOperator};
use ints::Op;
use lang_base::NoMemory;
use lang_helpers::{beside, boxes, ok};
use std::alloc::Global;

/// A term, and the type of the expression that it stands for.
#[derive(Drop)]
pub struct Typed {
    pub term: Term,
    pub kind: IntegerType,
}

/// The type that two operands are brought to (C99 6.3.1.8).
pub(crate) fn common(left: IntegerType, right: IntegerType) -> IntegerType
    ensures { result ≡ common left right }
{
    match left {
        IntegerType::Int => right,
        IntegerType::Unsigned => IntegerType::Unsigned,
    }
}

/// The operator for `int`, or the one for `unsigned int`.
pub(crate) fn by_type(kind: IntegerType, signed: Op, unsigned: Op) -> Op
    ensures { result ≡ by_type kind signed unsigned }
{
    match kind {
        IntegerType::Int => signed,
        IntegerType::Unsigned => unsigned,
    }
}

/// An operator on one operand (C99 6.5.3.3).
pub(crate) fn unary(
    alloc: Global,
    operator: UnaryOperator,
    operand: Typed,
) -> Result<Typed, NoMemory>
    ensures kind { IfOk result (λ t. t.kind ≡ unary_type operator operand.kind) }
    ensures term { IfOk result (λ t. term_tree t.term ≡ unary_term operator operand.kind (term_tree operand.term)) }
{
    let Typed { term, kind } = operand;
    let chosen = match operator {
        UnaryOperator::Plus => return Ok(Typed { term, kind }),
        UnaryOperator::Minus => by_type(kind, Op::NegS, Op::NegU),
        UnaryOperator::Complement => Op::Not,
        UnaryOperator::Not => {
            let term = Term::Unary(Op::IsZero, Box::new(alloc, term)?);
            return Ok(Typed {
                term,
                kind: IntegerType::Int,
            });
        }
    };
    let term = Term::Unary(chosen, Box::new(alloc, term)?);
    Ok(Typed { term, kind })
}

/// The type that an operator on two operands gives (C99 6.5.5 to 6.5.14).
fn binary_type(operator: BinaryOperator, left: IntegerType, right: IntegerType) -> IntegerType
    ensures { result ≡ binary_type operator left right }
{
    match operator {
        BinaryOperator::ShiftLeft | BinaryOperator::ShiftRight => left,
        BinaryOperator::Or
        | BinaryOperator::Xor
        | BinaryOperator::And
        | BinaryOperator::Add
        | BinaryOperator::Subtract
        | BinaryOperator::Multiply
        | BinaryOperator::Divide
        | BinaryOperator::Remainder => common(left, right),
        BinaryOperator::LogicalOr
        | BinaryOperator::LogicalAnd
        | BinaryOperator::Equal
        | BinaryOperator::NotEqual
        | BinaryOperator::Less
        | BinaryOperator::Greater
        | BinaryOperator::LessEqual
        | BinaryOperator::GreaterEqual => IntegerType::Int,
    }
}

/// An operator of the tables on two terms.
pub(crate) fn applied(
    alloc: Global,
    operator: Op,
    left: Term,
    right: Term,
) -> Result<Term, NoMemory>
    ensures { IfOk result (λ t. term_tree t ≡ P.Binary operator (term_tree left) (term_tree right)) }
{
    let (left, right) = ok!(boxes(alloc, left, right));
    Ok(Term::Binary(operator, left, right))
}

/// The term of an operator on two operands, of the types of its left operand and of both.
fn binary_term(
    alloc: Global,
    operator: BinaryOperator,
    kinds: (IntegerType, IntegerType),
    left: Term,
    right: Term,
) -> Result<Term, NoMemory>
    ensures { IfOk result (λ t. term_tree t ≡ binary_term operator kinds.0 kinds.1 (term_tree left) (term_tree right)) }
{
    match way_of(operator, kinds) {
        Way::Applied(chosen) => applied(alloc, chosen, left, right),
        Way::Swapped(chosen) => applied(alloc, chosen, right, left),
        Way::Either => {
            let (left, right) = ok!(boxes(alloc, left, right));
            Ok(Term::Either(left, right))
        }
        Way::Both => {
            let (left, right) = ok!(boxes(alloc, left, right));
            Ok(Term::Both(left, right))
        }
    }
}

/// An operator on two operands.
pub(crate) fn binary(
    alloc: Global,
    operator: BinaryOperator,
    left: Typed,
    right: Typed,
) -> Result<Typed, NoMemory>
    ensures kind { IfOk result (λ t. t.kind ≡ binary_type operator left.kind right.kind) }
    ensures term { IfOk result (λ t. term_tree t.term ≡ binary_tree operator left.kind right.kind left.term right.term) }
{
    let kind = binary_type(operator, left.kind, right.kind);
    let kinds = (left.kind, right.kind);
    let term = ok!(binary_term(alloc, operator, kinds, left.term, right.term));
    Ok(Typed { term, kind })
}

/// `?:` (C99 6.5.15).
pub(crate) fn conditional(
    alloc: Global,
    condition: Typed,
    left: Typed,
    right: Typed,
) -> Result<Typed, NoMemory>
    ensures kind { IfOk result (λ t. t.kind ≡ common left.kind right.kind) }
    ensures term { IfOk result (λ t. term_tree t.term ≡ choice_tree condition.term left.term right.term) }
{
    let kind = common(left.kind, right.kind);
    let behind = boxes(alloc, condition.term, left.term);
    let (right, (condition, left)) = ok!(beside(right.term, behind));
    let term = Term::Conditional(condition, left, Box::new(alloc, right)?);
    Ok(Typed { term, kind })
}
