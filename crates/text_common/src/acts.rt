//! Plain instructions and tests.

ghost use Rattle.std.specs.Prelude.{◌≡◌, [], ◌∷◌};
ghost use Rattle.lang_base.specs.Texts.{Appends};
ghost use Rattle.text_keys.specs.declared.word.Word.TheVariants.{Named};
ghost use Rattle.text_keys.specs.Lines.{spaced};
ghost use Rattle.text_common.specs.Acts.{argument_words, test_words, value_words, global_word, operate_words, load_words, store_words, act_target, act_left, act_right};

use crate::places::word_of_register;
use ints::Op;
use lang_base::NoMemory;
use locations::Register;
use machine::{Act, Arguments, Test};
use text_keys::{Key, Letter, Word, condition_key, push_key, push_word};

fn push_arguments(out: &mut Vec<u8>, arguments: &Arguments) -> Result<(), NoMemory>
    ensures { Appends result (spaced (argument_words arguments.now)) out.old.items out.new.items }
{
    match *arguments {
        Arguments::One(first) => push_word(out, word_of_register(first)),
        Arguments::Two(first, second) => {
            push_word(out, word_of_register(first))?;
            push_word(out, word_of_register(second))
        }
    }
}

/// What a branch asks.
pub fn push_test(out: &mut Vec<u8>, test: &Test) -> Result<(), NoMemory>
    ensures { Appends result (spaced (test_words test.now)) out.old.items out.new.items }
{
    push_key(out, condition_key(test.condition))?;
    push_arguments(out, &test.arguments)
}

/// A register, or none.
pub fn push_value(out: &mut Vec<u8>, value: Option<Register>) -> Result<(), NoMemory>
    ensures { Appends result (spaced (value_words value)) out.old.items out.new.items }
{
    match value {
        None => Ok(()),
        Some(number) => push_word(out, word_of_register(number)),
    }
}

/// Where what a plain instruction gives goes.
fn target_of(act: &Act) -> Option<Register>
    ensures { result ≡ act_target act.now }
{
    match act {
        Act::Constant { target, .. } => Some(*target),
        Act::Operate { target, .. } => Some(*target),
        Act::Load { target, .. } => Some(*target),
        Act::Store { .. } => None,
        Act::Put { target, .. } => *target,
    }
}

/// Where what a plain instruction gives goes, before what it does.
pub fn push_act_left(out: &mut Vec<u8>, act: &Act) -> Result<(), NoMemory>
    ensures { Appends result (spaced (act_left act.now)) out.old.items out.new.items }
{
    match target_of(act) {
        None => Ok(()),
        Some(target) => {
            push_word(out, word_of_register(target))?;
            push_key(out, Key::Is)
        }
    }
}

/// The word of a global.
fn word_of_global(number: u16) -> Word
    ensures { result ≡ global_word number }
{
    Word::Lettered(Letter::Global, u64::from(number))
}

/// A key and a word.
pub fn push_told(out: &mut Vec<u8>, key: Key, word: Word) -> Result<(), NoMemory>
    ensures { Appends result (spaced (Named key ∷ word ∷ [])) out.old.items out.new.items }
{
    push_key(out, key)?;
    push_word(out, word)
}

/// An operator and its registers.
fn push_operate(out: &mut Vec<u8>, op: Op, arguments: &Arguments) -> Result<(), NoMemory>
    ensures { Appends result (spaced (operate_words op arguments.now)) out.old.items out.new.items }
{
    push_key(out, Key::Operator(op))?;
    push_arguments(out, arguments)
}

/// A load: a global, and the register of the cell's number.
fn push_load(out: &mut Vec<u8>, number: u16, index: Register) -> Result<(), NoMemory>
    ensures { Appends result (spaced (load_words number index)) out.old.items out.new.items }
{
    push_key(out, Key::Load)?;
    push_word(out, word_of_global(number))?;
    push_word(out, word_of_register(index))
}

/// A store: a global, the register of the cell's number, and the source.
fn push_store(
    out: &mut Vec<u8>,
    number: u16,
    index: Register,
    source: Register,
) -> Result<(), NoMemory>
    ensures { Appends result (spaced (store_words number index source)) out.old.items out.new.items }
{
    push_key(out, Key::Store)?;
    push_word(out, word_of_global(number))?;
    push_word(out, word_of_register(index))?;
    push_word(out, word_of_register(source))
}

/// What a plain instruction does.
pub fn push_act_right(out: &mut Vec<u8>, act: &Act) -> Result<(), NoMemory>
    ensures { Appends result (spaced (act_right act.now)) out.old.items out.new.items }
{
    match act {
        Act::Constant { word, .. } => push_told(out, Key::Constant, Word::Number(u64::from(*word))),
        Act::Operate { op, arguments, .. } => push_operate(out, *op, arguments),
        Act::Load {
            global: number,
            index,
            ..
        } => push_load(out, *number, *index),
        Act::Store {
            global: number,
            index,
            source,
        } => push_store(out, *number, *index, *source),
        Act::Put { source, .. } => push_told(out, Key::Put, word_of_register(*source)),
    }
}
