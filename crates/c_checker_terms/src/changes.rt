//! Compound assignments (C99 6.5.16.2).

ghost use Rattle.std.specs.Prelude.{◌≡◌, IfOk};
ghost use Rattle.c_program.specs.Views.{term_tree};
ghost use Rattle.c_checker_rules.specs.Terms.{change_operator};
ghost use Rattle.c_checker_terms.specs.Sources.{changed_tree};

use crate::typed::{Typed, applied, by_type, common};
use c_program::Term;
use c_syntax::{AssignOperator, IntegerType};
use ints::Op;
use lang_base::NoMemory;
use std::alloc::Global;

/// The operator that a compound assignment applies, by the types of its lvalue and of its value. A shift is by the
/// lvalue's type alone (C99 6.5.7).
pub fn change_operator(operator: AssignOperator, left: IntegerType, right: IntegerType) -> Op
    ensures { result ≡ change_operator operator left right }
{
    let kind = common(left, right);
    match operator {
        AssignOperator::Multiply => by_type(kind, Op::MulS, Op::MulU),
        AssignOperator::Divide => by_type(kind, Op::DivS, Op::DivU),
        AssignOperator::Remainder => by_type(kind, Op::ModS, Op::ModU),
        AssignOperator::Add => by_type(kind, Op::AddS, Op::AddU),
        AssignOperator::Subtract => by_type(kind, Op::SubS, Op::SubU),
        AssignOperator::ShiftLeft => by_type(left, Op::ShlS, Op::ShlU),
        AssignOperator::ShiftRight => by_type(left, Op::ShrS, Op::ShrU),
        AssignOperator::And => Op::And,
        AssignOperator::Xor => Op::Xor,
        AssignOperator::Or => Op::Or,
    }
}

/// What a compound assignment gives to a variable: the operator on its word and the value's.
#[tactic(auto, using(c_checker_rules::proofs::Changes::change_applied))]
pub fn changed(
    alloc: Global,
    operator: AssignOperator,
    left: Typed,
    right: Typed,
) -> Result<Term, NoMemory>
    ensures { IfOk result (λ t. term_tree t ≡ changed_tree operator left.kind right.kind left.term right.term) }
{
    let chosen = change_operator(operator, left.kind, right.kind);
    applied(alloc, chosen, left.term, right.term)
}
