//! What is known before an instruction.

ghost use Rattle.std.specs.Prelude.{◌≡◌, None, slice_index_or, slice_set};
ghost use Rattle.native_lowering_definition.specs.Facts.{no_facts, known, unless, set, left, without_flag, flag_behind, flag_behind_power, flag_left, written, after_act, after_move, answer_of, answered, after_test, after};
ghost use Rattle.native_lowering_code.specs.Kinds.{kind_in};

use crate::kinds::{Kind, kind_of};
use crate::powers::power_known;
use ints::Cond;
use linear_language::Instruction;
use locations::Location;
use machine::{Act, Arguments, Test};
use std::marker::Model;
use x86_syntax::{Condition, Operator};

/// A register, and a condition that holds of the flags exactly where it is not 0.
type Flag = Option<(u8, Condition)>;

/// The words of some registers, and of at most one register that it is not 0 exactly where a condition holds of the flags.
#[derive(Drop)]
pub struct Facts {
    words: [Option<u32>; 8],
    flag: Flag,
}

impl Model for Facts {
    ghost use Rattle.native_lowering_definition.specs.Facts.{Facts};

    ghost Value = { Facts };

    ghost view = { λ f. record { words = f.words; flag = f.flag } };
}

impl Facts {
    /// Nothing is known.
    pub fn none() -> Facts
        ensures { result ≡ no_facts }
    {
        Facts {
            words: [None; 8],
            flag: None,
        }
    }

    /// The same facts.
    pub fn again(&self) -> Facts
        ensures { result ≡ self.now }
    {
        Facts {
            words: self.words,
            flag: self.flag,
        }
    }

    /// The word of a register, if it is known.
    pub fn known(&self, r: u8) -> Option<u32>
        ensures { result ≡ known r self.now }
    {
        word_in(&self.words, r)
    }
}

/// The word of a register, if it is known.
fn word_in(words: &[Option<u32>; 8], r: u8) -> Option<u32>
    ensures { result ≡ slice_index_or words.now r None }
{
    let place = usize::from(r);
    if place < 8 { words[place] } else { None }
}

/// The words, one of them changed.
fn with_word(words: &[Option<u32>; 8], r: u8, word: Option<u32>) -> [Option<u32>; 8]
    ensures { result ≡ slice_set words.now r word }
{
    let mut changed = *words;
    let place = usize::from(r);
    if place < 8 {
        changed[place] = word;
    }
    changed
}

/// What is known of the flags, unless it is of this register.
fn unless(r: u8, flag: Flag) -> Flag
    ensures { result ≡ unless r flag }
{
    match flag {
        None => None,
        Some(known) => { if known.0 == r { None } else { Some(known) } }
    }
}

/// A register has a word that is known, or not; the flags stay.
fn set(r: u8, word: Option<u32>, facts: &Facts) -> Facts
    ensures { result ≡ set r word facts.now }
{
    Facts {
        words: with_word(&facts.words, r, word),
        flag: unless(r, facts.flag),
    }
}

/// A register has a word that is not known; and this is known of the flags.
fn left(r: u8, flag: Flag, facts: &Facts) -> Facts
    ensures { result ≡ left r flag facts.now }
{
    Facts {
        words: with_word(&facts.words, r, None),
        flag,
    }
}

fn without_flag(facts: &Facts) -> Facts
    ensures { result ≡ without_flag facts.now }
{
    Facts {
        words: facts.words,
        flag: None,
    }
}

/// What an operator with this target leaves known of the flags.
fn flag_behind(kind: Kind, d: u8) -> Flag
    ensures { result ≡ flag_behind (kind_in kind) d }
{
    match kind {
        Kind::Turns(_) => None,
        Kind::Makes(op) => match op {
            Operator::Add | Operator::Sub | Operator::Mul => None,
            Operator::And | Operator::Or | Operator::Xor => Some((d, Condition::NotEqual)),
        },
        Kind::Shifts(_) => None,
        Kind::Divides(_, _) => None,
        Kind::Compares(condition) => Some((d, condition)),
        Kind::AsksZero => Some((d, Condition::Equal)),
    }
}

fn written(target: Option<u8>, facts: &Facts) -> Facts
    ensures { result ≡ written target facts.now }
{
    match target {
        None => without_flag(facts),
        Some(r) => left(r, None, facts),
    }
}

/// What a division leaves known of the flags where its divisor is 2 ^ k.
fn flag_behind_power(power: Option<u32>, signed: bool, quotient: bool, d: u8) -> Flag
    ensures { result ≡ flag_behind_power power signed quotient d }
{
    match power {
        None => None,
        Some(_) => {
            if signed {
                None
            } else if quotient {
                None
            } else {
                Some((d, Condition::NotEqual))
            }
        }
    }
}

/// What an operator with these arguments leaves known of the flags.
fn flag_left(kind: Kind, arguments: Arguments, d: u8, facts: &Facts) -> Flag
    ensures { result ≡ flag_left (kind_in kind) arguments d facts.now }
{
    match kind {
        Kind::Divides(signed, quotient) => match arguments {
            Arguments::One(_) => None,
            Arguments::Two(_, b) => {
                flag_behind_power(power_known(facts.known(b), signed), signed, quotient, d)
            }
        },
        Kind::Turns(_) => flag_behind(kind, d),
        Kind::Makes(_) => flag_behind(kind, d),
        Kind::Shifts(_) => flag_behind(kind, d),
        Kind::Compares(_) => flag_behind(kind, d),
        Kind::AsksZero => flag_behind(kind, d),
    }
}

fn after_operator(kind: Kind, arguments: Arguments, target: u8, facts: &Facts) -> Facts
    ensures { result ≡ left target (flag_left (kind_in kind) arguments target facts.now) facts.now }
{
    left(target, flag_left(kind, arguments, target, facts), facts)
}

fn after_act(act: Act, facts: &Facts) -> Facts
    ensures { result ≡ after_act act facts.now }
{
    match act {
        Act::Constant { target, word } => set(target, Some(word), facts),
        Act::Operate {
            op,
            target,
            arguments,
        } => after_operator(kind_of(op), arguments, target, facts),
        Act::Load { target, .. } => left(target, None, facts),
        Act::Store { .. } => without_flag(facts),
        Act::Put { target, .. } => written(target, facts),
    }
}

fn after_move(target: Location, facts: &Facts) -> Facts
    ensures { result ≡ after_move target facts.now }
{
    match target {
        Location::InRegister(r) => set(r, None, facts),
        Location::InSlot(_) => facts.again(),
    }
}

/// The condition that answers whether a register is not 0, where one is known.
fn answer_of(r: u8, flag: Flag) -> Option<Condition>
    ensures { result ≡ answer_of r flag }
{
    match flag {
        None => None,
        Some(known) => { if known.0 == r { Some(known.1) } else { None } }
    }
}

/// The condition that answers a test, where one is known.
pub fn answered(test: Test, facts: &Facts) -> Option<Condition>
    ensures { result ≡ answered test facts.now }
{
    match test.condition {
        Cond::Nz => match test.arguments {
            Arguments::One(r) => answer_of(r, facts.flag),
            Arguments::Two(_, _) => None,
        },
        Cond::Eq | Cond::Ne | Cond::LtS | Cond::LtU | Cond::LeS | Cond::LeU => None,
    }
}

fn after_test(answer: Option<Condition>, facts: &Facts) -> Facts
    ensures { result ≡ after_test answer facts.now }
{
    match answer {
        None => without_flag(facts),
        Some(_) => facts.again(),
    }
}

/// What is known behind an instruction before which this is known.
pub fn after(instruction: &Instruction, facts: &Facts) -> Facts
    ensures { result ≡ after instruction.now facts.now }
{
    match instruction {
        Instruction::Do { act } => after_act(*act, facts),
        Instruction::Copy { step } => after_move(step.target, facts),
        Instruction::Call { .. } => Facts::none(),
        Instruction::Branch { test, .. } => after_test(answered(*test, facts), facts),
        Instruction::Return { .. } => without_flag(facts),
        Instruction::Label { .. } => facts.again(),
        Instruction::Goto { .. } => without_flag(facts),
    }
}
