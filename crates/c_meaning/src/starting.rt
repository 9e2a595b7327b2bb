//! The start of a run.

ghost use Rattle.std.specs.Prelude.{◌≡◌, IfOk, map, slice_index};
ghost use Rattle.c_program.specs.Meaning.{cells_of};
ghost use Rattle.c_meaning.specs.Arguments.{StartsMain};

use crate::calling::push_blank;
use c_meaning_machine::{Cells, Left, Machine, Scope, Stack, Waiting};
use c_program::{Function, GlobalVariable, Target};
use lang_base::NoMemory;
use std::alloc::Global;

/// A word of a list: 0 behind its end.
fn word_at(words: &[u32], place: usize) -> u32
    ensures { result ≡ slice_index words.now place }
{
    if place < words.len() { words[place] } else { 0 }
}

#[tactic(auto, using(crate::proofs::Beginning::filled_more))]
fn first_cells(alloc: Global, global: &GlobalVariable) -> Result<Cells, NoMemory>
    ensures { IfOk result (λ cells. cells ≡ cells_of global.now) }
{
    let first = global.first_words.as_slice();
    let mut words = Vec::new(alloc);
    for place in 0..global.cells {
        words.push(word_at(first, place))?;
    }
    Ok(Cells::from_vec(words))
}

fn all_cells(alloc: Global, globals: &[GlobalVariable]) -> Result<Vec<Cells>, NoMemory>
    ensures { IfOk result (λ all. all.items ≡ map cells_of globals.now) }
{
    let mut all = Vec::new(alloc);
    for global in globals {
        all.push(first_cells(alloc, global)?)?;
    }
    Ok(all)
}

/// The machine at the beginning of main's body, behind a caller that returns what main returns.
#[tactic(auto, using(crate::proofs::Beginning::shown_main))]
pub fn start<'a>(
    alloc: Global,
    globals: &[GlobalVariable],
    functions: &'a [Function],
    main: &'a Function,
    bound: u64,
) -> Result<Machine<'a>, NoMemory>
    ensures { IfOk result (StartsMain globals.now functions.entry.now main.entry.now bound) }
{
    let mut locals = Vec::new(alloc);
    push_blank(&mut locals, main.locals.saturating_sub(main.parameters))?;
    let mut left = Stack::new(alloc);
    left.push(Left::Back(Waiting {
        ending: main.ending,
        target: Target::Caller,
        base: 0,
        bound,
        actions: &[],
    }))?;
    Ok(Machine {
        functions,
        bound,
        actions: main.body.as_slice(),
        left,
        scope: Scope {
            locals,
            base: 0,
            globals: all_cells(alloc, globals)?,
        },
        words: Vec::new(alloc),
    })
}
