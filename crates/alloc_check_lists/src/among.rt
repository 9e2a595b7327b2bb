//! Whether an equation is among others that are in order.

ghost use Rattle.std.specs.Prelude.{◌↔◌, ◌<◌, ◌≤◌, length, All, IsTrue, IfSome, IfNone, Contains};
ghost use Rattle.alloc_check_lists.specs.Ranks.{RiseFrom, AreLower, AreNoLower};

use alloc_check_fill::{Equation, is_same, rank};

/// How many equations have lower ranks.
fn first_from(equations: &[Equation], least: u64) -> usize
    requires { RiseFrom 0 equations.now }
    ensures within { result ≤ length equations.now }
    ensures lower { AreLower equations.now result least }
    ensures higher { AreNoLower equations.now result least }
{
    let mut low = 0;
    let mut high = equations.len();
    while low < high {
        let middle = low + (high - low) / 2;
        if rank(&equations[middle]) < least {
            low = middle + 1;
        } else {
            high = middle;
        }
    }
    low
}

/// The place of the equation, none where it is not among these.
fn place_of(equations: &[Equation], equation: &Equation) -> Option<usize>
    requires { RiseFrom 0 equations.now }
    ensures found { IfSome result (λ place. place < length equations.now × Contains equations.now equation.now) }
    ensures absent { IfNone result (Contains equations.now equation.now → ⊥) }
{
    let first = first_from(equations, rank(equation));
    if first == equations.len() {
        return None;
    }
    if !is_same(&equations[first], equation) {
        return None;
    }
    Some(first)
}

/// Whether the equation stands at this place.
fn stands_at(equations: &[Equation], place: usize, equation: &Equation) -> bool
    ensures { IsTrue result → (place < length equations.now × Contains equations.now equation.now) }
{
    if place >= equations.len() {
        return false;
    }
    is_same(&equations[place], equation)
}

/// Whether each of the others is among these. Mostly they are in order, so each is looked for behind the one before it,
/// and only else by halves.
pub fn are_among(equations: &[Equation], others: &[Equation]) -> bool
    requires { RiseFrom 0 equations.now }
    ensures { IsTrue result ↔ All (Contains equations.now) others.now }
{
    let mut next = 0;
    for other in others {
        if stands_at(equations, next, other) {
            next += 1;
        } else {
            let Some(place) = place_of(equations, other) else {
                return false;
            };
            next = place + 1;
        }
    }
    true
}
