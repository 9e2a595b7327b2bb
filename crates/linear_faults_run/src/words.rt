//! The words of a function.

ghost use Rattle.std.specs.Prelude.{◌≡◌, None, IfOk, replicate, slice_index_or, slice_set};
ghost use Rattle.machine.specs.Frames.{after_call};
ghost use Rattle.linear_faults_run.specs.Standing.{AreFresh, Holds, Moves, Puts};

use lang_base::NoMemory;
use locations::{Location, Move};
use std::alloc::Global;

/// The words of a function's registers and slots, each defined or not.
#[derive(Drop)]
pub struct Words {
    pub registers: Vec<Option<u32>>,
    pub slots: Vec<Option<u32>>,
}

/// The word at a place; where there is none, nothing is defined.
pub fn read(words: &[Option<u32>], place: usize) -> Option<u32>
    ensures { result ≡ slice_index_or words.now place None }
{
    if place < words.len() {
        words[place]
    } else {
        None
    }
}

/// The word at a place becomes this one, if there is such a place.
pub(crate) fn write(words: &mut [Option<u32>], place: usize, value: Option<u32>)
    ensures { words.new ≡ slice_set words.old place value }
{
    if place < words.len() {
        words[place] = value;
    }
}

/// What a location holds.
pub(crate) fn value_of(words: &Words, location: Location) -> Option<u32>
    ensures { Holds words.now location result }
{
    match location {
        Location::InRegister(register) => read(&words.registers, usize::from(register)),
        Location::InSlot(slot) => read(&words.slots, usize::from(slot)),
    }
}

/// A location holds this.
pub(crate) fn put(words: &mut Words, location: Location, value: Option<u32>)
    ensures { Puts words.old location value words.new }
{
    match location {
        Location::InRegister(register) => {
            write(&mut words.registers, usize::from(register), value)
        }
        Location::InSlot(slot) => write(&mut words.slots, usize::from(slot), value),
    }
}

/// A move copies what its source holds.
pub fn move_word(words: &mut Words, step: Move)
    ensures { Moves words.old step words.new }
{
    let value = value_of(words, step.source);
    put(words, step.target, value);
}

/// So many words, none of them defined.
fn undefined(alloc: Global, count: usize) -> Result<Vec<Option<u32>>, NoMemory>
    ensures { IfOk result (λ words. words.items ≡ replicate count None) }
{
    Ok(vec![in alloc; None; count]?)
}

/// The words of a function that begins, with so many slots.
pub fn fresh(alloc: Global, slots: u16) -> Result<Words, NoMemory>
    ensures { IfOk result (AreFresh slots) }
{
    let registers = undefined(alloc, 8)?;
    let slots = undefined(alloc, usize::from(slots))?;
    Ok(Words { registers, slots })
}

/// A call loses the words of r0 to r3.
pub(crate) fn lose(registers: &mut [Option<u32>])
    ensures { registers.new ≡ after_call registers.old }
{
    write(registers, 0, None);
    write(registers, 1, None);
    write(registers, 2, None);
    write(registers, 3, None);
}
