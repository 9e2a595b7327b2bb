//! Words for what is left open.

ghost use Rattle.std.specs.Prelude.{◌≡◌, ◌%◌, OnOk, IfOk};
ghost use Rattle.x86_state.specs.State.{rest_of, goes_on};
ghost use Rattle.x86.specs.Framing.{with_cell, with_cells, grown};
ghost use Rattle.x86.specs.Printing.{scrambled, all_scrambled, with_byte, printed};
ghost use Rattle.x86.specs.Runs.{state_of, stream_of, Changes, StepsFrom, HasNext};

use crate::moving::go_on;
use crate::outcome::Outcome;
use crate::running::Running;
use lang_base::NoMemory;
use x86_state::Cell;
use x86_syntax::Register;

/// The next word.
fn draw(junk: &[u32], drawn: &mut usize) -> u32
    ensures word { result ≡ stream_of junk.now drawn.old 0 }
    ensures rest { stream_of junk.now drawn.new ≡ rest_of (stream_of junk.now drawn.old) }
{
    if junk.is_empty() {
        return 0;
    }
    let place = *drawn % junk.len();
    *drawn = place + 1;
    junk[place]
}

/// A register holds the next word.
pub(crate) fn scramble(run: &mut Running, junk: &[u32], target: Register)
    ensures state { state_of junk.now run.new ≡ scrambled target (state_of junk.now run.old) }
    ensures place { run.new.place ≡ run.old.place }
{
    let word = draw(junk, &mut run.drawn);
    run.registers.put(target, word);
}

/// So do the four that pass arguments.
pub(crate) fn scramble_all(run: &mut Running, junk: &[u32])
    ensures state { state_of junk.now run.new ≡ all_scrambled (state_of junk.now run.old) }
    ensures place { run.new.place ≡ run.old.place }
{
    scramble(run, junk, Register::Ecx);
    scramble(run, junk, Register::Edx);
    scramble(run, junk, Register::Esi);
    scramble(run, junk, Register::Edi);
}

/// A cell more.
fn push_cell(run: &mut Running, junk: &[u32]) -> Result<(), NoMemory>
    ensures state { OnOk result (state_of junk.now run.new ≡ with_cell (state_of junk.now run.old)) }
    ensures place { OnOk result (run.new.place ≡ run.old.place) }
{
    let word = draw(junk, &mut run.drawn);
    run.stack.push(Cell::Word(word))
}

/// So many cells more.
fn push_cells(run: &mut Running, junk: &[u32], count: u16) -> Result<(), NoMemory>
    ensures state { OnOk result (state_of junk.now run.new ≡ with_cells count (state_of junk.now run.old)) }
    ensures place { OnOk result (run.new.place ≡ run.old.place) }
{
    let mut left = count;
    while left > 0 {
        push_cell(run, junk)?;
        left -= 1;
    }
    Ok(())
}

pub(crate) fn grow(run: &mut Running, junk: &[u32], count: u16) -> Result<Outcome, NoMemory>
    requires { HasNext run.old }
    ensures { IfOk result (StepsFrom junk.now (λ s. goes_on (grown count s)) run.old run.new) }
{
    push_cells(run, junk, count)?;
    run.flags = None;
    Ok(go_on(run))
}

/// Prints the low byte of a word, which eax becomes.
fn print_low_byte(run: &mut Running, word: u32) -> Result<(), NoMemory>
    ensures state { OnOk result (Changes (with_byte (word % 256)) run.old run.new) }
    ensures place { OnOk result (run.new.place ≡ run.old.place) }
{
    let byte = word % 256;
    run.output.push(byte as u8)?;
    run.registers.put(Register::Eax, byte);
    Ok(())
}

/// Prints the low byte of edi.
pub(crate) fn print(run: &mut Running, junk: &[u32]) -> Result<Outcome, NoMemory>
    requires { HasNext run.old }
    ensures { IfOk result (StepsFrom junk.now (λ s. goes_on (printed s)) run.old run.new) }
{
    let edi = run.registers.word(Register::Edi);
    print_low_byte(run, edi)?;
    scramble_all(run, junk);
    run.flags = None;
    Ok(go_on(run))
}
