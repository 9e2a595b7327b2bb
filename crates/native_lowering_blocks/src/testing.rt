//! The blocks of jumps and branches.

ghost use Rattle.std.specs.Prelude.{◌≡◌};
ghost use Rattle.machine.specs.declared.arguments.Arguments.TheVariants.{One, Two};
ghost use Rattle.native_lowering_definition.specs.Blocks.{jumps, jumps_if, tests};
ghost use Rattle.native_lowering_code.specs.Adding.{Adds};
ghost use Rattle.native_lowering_blocks.specs.Blocks.{branch};

use crate::around::Around;
use ints::Cond;
use lang_base::NoMemory;
use machine::{Arguments, Test};
use native_lowering_code::{Facts, add, answered, compare, condition_of, register_of};
use x86_syntax::{Condition, Instruction};

/// Goes to a label, or stops where it is missing.
pub fn jump(around: &Around<'_>, label: u16) -> Instruction
    ensures { result ≡ jumps around.now label }
{
    if around.has_label(label) {
        Instruction::Jump { label }
    } else {
        Instruction::Stop
    }
}

fn jump_if(around: &Around<'_>, condition: Condition, label: u16) -> Instruction
    ensures { result ≡ jumps_if around.now condition label }
{
    if around.has_label(label) {
        Instruction::JumpIf { condition, label }
    } else {
        Instruction::StopIf { condition }
    }
}

fn add_test_of_one(
    out: &mut Vec<Instruction>,
    around: &Around<'_>,
    facts: &Facts,
    condition: Cond,
    r: u8,
    label: u16,
) -> Result<(), NoMemory>
    ensures { Adds result (tests around.now facts.now condition (One r) label) out.old.items out.new.items }
{
    match condition {
        Cond::Nz => {
            let left = register_of(r);
            let test = Instruction::CompareWith { left, word: 0 };
            add(out, &[test, jump_if(around, Condition::NotEqual, label)])
        }
        Cond::Eq | Cond::Ne | Cond::LtS | Cond::LtU | Cond::LeS | Cond::LeU => {
            add(out, &[Instruction::Stop])
        }
    }
}

fn add_test_of_two(
    out: &mut Vec<Instruction>,
    around: &Around<'_>,
    facts: &Facts,
    condition: Cond,
    a: u8,
    b: u8,
    label: u16,
) -> Result<(), NoMemory>
    ensures { Adds result (tests around.now facts.now condition (Two a b) label) out.old.items out.new.items }
{
    match condition {
        Cond::Nz => add(out, &[Instruction::Stop]),
        Cond::Eq | Cond::Ne | Cond::LtS | Cond::LtU | Cond::LeS | Cond::LeU => {
            let test = compare(a, b, facts.known(b));
            let jump = jump_if(around, condition_of(condition), label);
            add(out, &[test, jump])
        }
    }
}

/// A test whose answer is not known.
fn add_test(
    out: &mut Vec<Instruction>,
    around: &Around<'_>,
    facts: &Facts,
    test: Test,
    label: u16,
) -> Result<(), NoMemory>
    ensures { Adds result (tests around.now facts.now test.condition test.arguments label) out.old.items out.new.items }
{
    match test.arguments {
        Arguments::One(r) => add_test_of_one(out, around, facts, test.condition, r, label),
        Arguments::Two(a, b) => add_test_of_two(out, around, facts, test.condition, a, b, label),
    }
}

/// The block of a branch.
pub fn add_branch(
    out: &mut Vec<Instruction>,
    around: &Around<'_>,
    facts: &Facts,
    test: Test,
    label: u16,
) -> Result<(), NoMemory>
    ensures { Adds result (branch around.now facts.now test label) out.old.items out.new.items }
{
    match answered(test, facts) {
        None => add_test(out, around, facts, test, label),
        Some(answer) => add(out, &[jump_if(around, answer, label)]),
    }
}
