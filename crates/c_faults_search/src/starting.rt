//! The start of a run.

ghost use Rattle.std.specs.Prelude.{◌≡◌, IfOk, map, slice_index};
ghost use Rattle.c_program.specs.Meaning.{cells_of};
ghost use Rattle.c_faults_search.specs.Starts.{StartsMain};

use c_faults_gaps::{others, own};
use c_faults_run::{places_in, push_blank};
use c_faults_step::{Item, Pile, Running, Tracer};
use c_meaning_machine::{Cells, Scope};
use c_program::{Function, GlobalVariable};
use lang_base::{NoMemory, Row};
use std::alloc::Global;

/// A word of a list: 0 behind its end.
fn word_at(words: &[u32], place: usize) -> u32
    ensures { result ≡ slice_index words.now place }
{
    if place < words.len() { words[place] } else { 0 }
}

#[tactic(auto, using(c_faults_step::proofs::Beginning::filled_more))]
fn first_cells(alloc: Global, global: &GlobalVariable) -> Result<Cells, NoMemory>
    ensures { IfOk result (λ cells. cells ≡ cells_of global.now) }
{
    let first = global.first_words.as_slice();
    let mut words = Vec::new(alloc);
    for place in 0..global.cells {
        words.push(word_at(first, place))?;
    }
    Ok(Cells::from_vec(words))
}

fn all_cells(alloc: Global, globals: &[GlobalVariable]) -> Result<Vec<Cells>, NoMemory>
    ensures { IfOk result (λ all. all.items ≡ map cells_of globals.now) }
{
    let mut all = Vec::new(alloc);
    for global in globals {
        all.push(first_cells(alloc, global)?)?;
    }
    Ok(all)
}

/// The run at the beginning of main's body.
pub fn start<'a>(
    alloc: Global,
    globals: &[GlobalVariable],
    functions: &'a [Function],
    number: usize,
    main: &'a Function,
    places: &'a [Row<usize>],
    bound: u64,
) -> Result<Tracer<'a>, NoMemory>
    ensures { IfOk result (StartsMain globals.now functions.entry.now number main.entry.now places.entry.now bound) }
{
    let own_places = places_in(places, number);
    let mut locals = Vec::new(alloc);
    push_blank(&mut locals, main.locals.saturating_sub(main.parameters))?;
    let cells = all_cells(alloc, globals)?;
    let mut items = Pile::new(alloc);
    items.push(Item::Do(bound, main.body.as_slice(), others(own_places)))?;
    Ok(Tracer {
        functions,
        places,
        running: Running {
            function: number,
            ending: main.ending,
            end: own(own_places),
        },
        items,
        scope: Scope {
            locals,
            base: 0,
            globals: cells,
        },
        words: Vec::new(alloc),
    })
}
