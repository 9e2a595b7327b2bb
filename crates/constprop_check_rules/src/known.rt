//! What facts say, and what is known of an instruction where they hold.

ghost use Rattle.std.specs.Prelude.{◌≡◌, ◌==◌, ℕ, [], ◌∷◌, option_and_then, IfSome};
ghost use Rattle.ints.specs.CondTable.{cond_table};
ghost use Rattle.ints.specs.MachineTable.{machine_table};
ghost use Rattle.rtl_passes_filled.specs.Fits.{ActFits};
ghost use Rattle.constprop_check_rules.specs.Ranges.{StaysInRange};
ghost use Rattle.constprop_check_rules.specs.Known.{fact_at, known_words, known_value, target_of, written_by, value_by, decided, folded_act, folded};

use crate::fact::Fact;
use ints::{Cond, Op, eval_cond, eval_m};
use rtl_passes_filled::{Act, Arguments, Instruction, Register, Test};

/// The word that a register has by the facts.
pub fn word_of(facts: &[Fact], register: Register) -> Option<u32>
    ensures { result ≡ fact_at facts.now register }
{
    for fact in facts {
        if fact.register == register {
            return Some(fact.word);
        }
    }
    None
}

/// What the machine gives, none at another number of words than the operator takes.
#[tactic(auto, using(crate::proofs::Counts::no_result))]
pub fn apply(op: Op, words: &[u32]) -> Option<u32>
    ensures { result ≡ machine_table op words.now }
{
    if words.len() == op.argument_count() {
        eval_m(op, words)
    } else {
        None
    }
}

/// Whether the condition holds, which it does at no other number of words than it takes.
#[tactic(auto, using(crate::proofs::Counts::not_held))]
pub fn holds(condition: Cond, words: &[u32]) -> bool
    ensures { result ≡ cond_table condition words.now }
{
    words.len() == condition.argument_count() && eval_cond(condition, words)
}

/// What the operator gives, where the words of its arguments are known.
pub fn known_result(op: Op, arguments: &Arguments, facts: &[Fact]) -> Option<u32>
    ensures { result ≡ option_and_then (machine_table op) (known_words arguments.now facts.now) }
{
    match *arguments {
        Arguments::One(first) => apply(op, &[word_of(facts, first)?]),
        Arguments::Two(first, second) => {
            apply(op, &[word_of(facts, first)?, word_of(facts, second)?])
        }
    }
}

/// The answer of the test, where the words of its arguments are known.
pub fn decision(test: &Test, facts: &[Fact]) -> Option<bool>
    ensures { result ≡ decided test.now facts.now }
{
    match test.arguments {
        Arguments::One(first) => Some(holds(test.condition, &[word_of(facts, first)?])),
        Arguments::Two(first, second) => {
            let words = [word_of(facts, first)?, word_of(facts, second)?];
            Some(holds(test.condition, &words))
        }
    }
}

/// The word that is known to be written.
pub fn act_value(act: &Act, facts: &[Fact]) -> Option<u32>
    ensures { result ≡ known_value act.now facts.now }
{
    match act {
        Act::Constant { word, .. } => Some(*word),
        Act::Move { source, .. } => word_of(facts, *source),
        Act::Operate { op, arguments, .. } => known_result(*op, arguments, facts),
        _ => None,
    }
}

/// The register that is written, if one is.
pub fn act_target(act: &Act) -> Option<Register>
    ensures { result ≡ target_of act.now }
{
    match act {
        Act::Nop | Act::Store { .. } => None,
        Act::Constant { target, .. }
        | Act::Move { target, .. }
        | Act::Operate { target, .. }
        | Act::Load { target, .. } => Some(*target),
        Act::Put { target, .. } => *target,
    }
}

/// The register that the instruction writes, if it writes one.
pub fn written(instruction: &Instruction) -> Option<Register>
    ensures { result ≡ written_by instruction.now }
{
    match instruction {
        Instruction::Do { act, .. } => act_target(act),
        Instruction::Call { target, .. } => *target,
        Instruction::Branch { .. } | Instruction::Return { .. } => None,
    }
}

/// The word that the instruction is known to write.
pub fn value(instruction: &Instruction, facts: &[Fact]) -> Option<u32>
    ensures { result ≡ value_by instruction.now facts.now }
{
    match instruction {
        Instruction::Do { act, .. } => act_value(act, facts),
        _ => None,
    }
}

fn fold_act(act: &Act, facts: &[Fact]) -> Option<Act>
    ensures value { result ≡ folded_act act.now facts.now }
    ensures fits { (registers : ℕ) → ActFits registers act.now → IfSome result (ActFits registers) }
{
    match act {
        Act::Move { target, .. } | Act::Operate { target, .. } => {
            let word = act_value(act, facts)?;
            Some(Act::Constant {
                target: *target,
                word,
            })
        }
        _ => None,
    }
}

/// The instruction made simpler, where the facts allow it; takes no memory.
pub fn fold(instruction: &Instruction, facts: &[Fact]) -> Option<Instruction>
    ensures value { result ≡ folded instruction.now facts.now }
    ensures fits { StaysInRange instruction.now result }
{
    match instruction {
        Instruction::Do { act, successor } => {
            let act = fold_act(act, facts)?;
            Some(Instruction::Do {
                act,
                successor: *successor,
            })
        }
        Instruction::Branch { test, taken, other } => {
            let answer = decision(test, facts)?;
            Some(Instruction::Do {
                act: Act::Nop,
                successor: if answer { *taken } else { *other },
            })
        }
        _ => None,
    }
}
