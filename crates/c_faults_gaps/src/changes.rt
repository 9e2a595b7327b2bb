//! Which part of a change has no value.

ghost use Rattle.std.specs.Prelude.{◌≡◌, []};
ghost use Rattle.c_program.specs.Views.{term_tree};
ghost use Rattle.c_faults.specs.Changes.{held};
ghost use Rattle.c_meaning_machine.specs.Scopes.{state_of};
ghost use Rattle.c_faults_gaps.specs.Found.{StoreGap, UpdateGap};

use crate::gaps::{cell_gap, gap, two_gap};
use crate::places::{behind, others, own};
use c_faults::Gap;
use c_meaning_machine::{Scope, evaluate};
use c_program::Term;
use ints::Op;

/// A cell becomes a word: its index, the cell, and what is stored.
pub fn store_gap(
    places: &[usize],
    global: usize,
    index: &Term,
    value: &Term,
    scope: &Scope,
) -> Option<Gap>
    ensures { StoreGap places.now global index.now value.now scope.now result }
{
    let parts = others(places);
    if let Some(found) = gap(index, parts, scope) {
        return Some(found);
    }
    if let Some(found) = cell_gap(own(places), scope, global, evaluate(index, scope)) {
        return Some(found);
    }
    gap(value, behind(index, parts), scope)
}

/// What an update adds to: the word of the cell, where it is there.
fn held(global: usize, index: &Term, scope: &Scope) -> Option<u32>
    ensures { result ≡ held global (term_tree index.now) (state_of scope.now []) }
{
    let index = evaluate(index, scope)?;
    scope.cell(global, index)
}

/// An update, whose second place is that of its operator.
pub fn update_gap(
    places: &[usize],
    global: usize,
    index: &Term,
    op: Op,
    value: &Term,
    scope: &Scope,
) -> Option<Gap>
    ensures { UpdateGap places.now global index.now op value.now scope.now result }
{
    let parts = others(others(places));
    if let Some(found) = gap(index, parts, scope) {
        return Some(found);
    }
    if let Some(found) = cell_gap(own(places), scope, global, evaluate(index, scope)) {
        return Some(found);
    }
    if let Some(found) = gap(value, behind(index, parts), scope) {
        return Some(found);
    }
    two_gap(
        own(others(places)),
        op,
        held(global, index, scope),
        evaluate(value, scope),
    )
}
