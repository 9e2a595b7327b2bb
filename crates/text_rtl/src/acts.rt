//! Registers, plain instructions and tests.

ghost use Rattle.std.specs.Prelude.{◌≡◌, ◌∷◌, []};
ghost use Rattle.lang_base.specs.Texts.{Appends};
ghost use Rattle.text_keys.specs.declared.word.Word.TheVariants.{Named};
ghost use Rattle.text_keys.specs.Lines.{spaced};
ghost use Rattle.text_keys.specs.Words.{target_words};
ghost use Rattle.text_rtl.specs.Acts.{register_word, global_word, argument_words, test_words, value_words, operate_words, load_words, store_words, act_target, act_right};

use ints::Op;
use lang_base::NoMemory;
use rtl_acts::{Act, Arguments, Register, Test};
use text_keys::{Key, Letter, SpacedWord, Word, condition_key, push_key, push_word};

/// The word of a register.
pub fn word_of_register(register: Register) -> Word
    ensures { result ≡ register_word register }
{
    Word::Lettered(Letter::Register, u64::from(register))
}

/// A register has a word.
pub(crate) struct InRegister;

impl SpacedWord for InRegister {
    type Item = Register;

    ghost word = { register_word };

    fn word(item: &Register) -> Word {
        word_of_register(*item)
    }
}

/// The word of a global.
fn word_of_global(number: u16) -> Word
    ensures { result ≡ global_word number }
{
    Word::Lettered(Letter::Global, u64::from(number))
}

fn push_arguments(out: &mut Vec<u8>, arguments: &Arguments) -> Result<(), NoMemory>
    ensures { Appends result (spaced (argument_words arguments.now)) out.old.items out.new.items }
{
    match *arguments {
        Arguments::One(first) => push_word(out, word_of_register(first)),
        Arguments::Two(first, second) => {
            push_word(out, word_of_register(first))?;
            push_word(out, word_of_register(second))
        }
    }
}

/// What a branch asks.
pub(crate) fn push_test(out: &mut Vec<u8>, test: &Test) -> Result<(), NoMemory>
    ensures { Appends result (spaced (test_words test.now)) out.old.items out.new.items }
{
    push_key(out, condition_key(test.condition))?;
    push_arguments(out, &test.arguments)
}

/// A register, or none.
pub(crate) fn push_value(out: &mut Vec<u8>, value: Option<Register>) -> Result<(), NoMemory>
    ensures { Appends result (spaced (value_words value)) out.old.items out.new.items }
{
    match value {
        None => Ok(()),
        Some(number) => push_word(out, word_of_register(number)),
    }
}

/// Where a result goes, if it goes anywhere.
pub(crate) fn push_target(out: &mut Vec<u8>, target: Option<Register>) -> Result<(), NoMemory>
    ensures { Appends result (spaced (target_words register_word target)) out.old.items out.new.items }
{
    match target {
        None => Ok(()),
        Some(number) => {
            push_word(out, word_of_register(number))?;
            push_key(out, Key::Is)
        }
    }
}

/// Where what a plain instruction gives goes.
pub(crate) fn target_of(act: &Act) -> Option<Register>
    ensures { result ≡ act_target act.now }
{
    match act {
        Act::Nop => None,
        Act::Constant { target, .. } => Some(*target),
        Act::Move { target, .. } => Some(*target),
        Act::Operate { target, .. } => Some(*target),
        Act::Load { target, .. } => Some(*target),
        Act::Store { .. } => None,
        Act::Put { target, .. } => *target,
    }
}

/// A key and a word.
fn push_told(out: &mut Vec<u8>, key: Key, word: Word) -> Result<(), NoMemory>
    ensures { Appends result (spaced (Named key ∷ word ∷ [])) out.old.items out.new.items }
{
    push_key(out, key)?;
    push_word(out, word)
}

/// An operator and its registers.
pub fn push_operate(out: &mut Vec<u8>, op: Op, arguments: &Arguments) -> Result<(), NoMemory>
    ensures { Appends result (spaced (operate_words op arguments.now)) out.old.items out.new.items }
{
    push_key(out, Key::Operator(op))?;
    push_arguments(out, arguments)
}

/// A load: the global, and the register of the cell's number.
pub fn push_load(out: &mut Vec<u8>, number: u16, index: Register) -> Result<(), NoMemory>
    ensures { Appends result (spaced (load_words number index)) out.old.items out.new.items }
{
    push_key(out, Key::Load)?;
    push_word(out, word_of_global(number))?;
    push_word(out, word_of_register(index))
}

/// A store: the same, and the source.
fn push_store(
    out: &mut Vec<u8>,
    number: u16,
    index: Register,
    source: Register,
) -> Result<(), NoMemory>
    ensures { Appends result (spaced (store_words number index source)) out.old.items out.new.items }
{
    push_key(out, Key::Store)?;
    push_word(out, word_of_global(number))?;
    push_word(out, word_of_register(index))?;
    push_word(out, word_of_register(source))
}

/// What a plain instruction does.
pub(crate) fn push_act_right(out: &mut Vec<u8>, act: &Act) -> Result<(), NoMemory>
    ensures { Appends result (spaced (act_right act.now)) out.old.items out.new.items }
{
    match act {
        Act::Nop => push_key(out, Key::Nothing),
        Act::Constant { word, .. } => push_told(out, Key::Constant, Word::Number(u64::from(*word))),
        Act::Move { source, .. } => push_told(out, Key::Move, word_of_register(*source)),
        Act::Operate { op, arguments, .. } => push_operate(out, *op, arguments),
        Act::Load {
            global: number,
            index,
            ..
        } => push_load(out, *number, *index),
        Act::Store {
            global: number,
            index,
            source,
        } => push_store(out, *number, *index, *source),
        Act::Put { source, .. } => push_told(out, Key::Put, word_of_register(*source)),
    }
}
