//! Whether equations hold at the entry, of parameters and their locations.

ghost use Rattle.std.specs.Prelude.{◌≢◌, ◌↔◌, IsTrue, All, Contains};
ghost use Rattle.alloc_check_fill.specs.Pairs.{equations_of};
ghost use Rattle.alloc_check_fill.specs.Rules.{IsNoParameter, HoldsAtEntry};

use alloc_check_fill::{Equation, Register, is_at, is_same, pair_at};
use locations::Location;

/// Whether the equation is of one of the registers and the location that the list has for it.
fn is_parameter(registers: &[Register], locations: &[Location], equation: &Equation) -> bool
    ensures { IsTrue result ↔ Contains (equations_of registers.now locations.now) equation.now }
{
    for k in 0..registers.len() {
        let Some(pair) = pair_at(registers, locations, k) else {
            return false;
        };
        if is_same(&pair, equation) {
            return true;
        }
    }
    false
}

fn is_no_parameter(registers: &[Register], locations: &[Location], equation: &Equation) -> bool
    ensures { IsTrue result ↔ IsNoParameter registers.now locations.now equation.now }
{
    is_no_register(registers, equation.register) && is_no_location(locations, equation.location)
}

fn is_no_register(registers: &[Register], register: Register) -> bool
    ensures { IsTrue result ↔ All (λ r. r ≢ register) registers.now }
{
    registers.iter().all(|other| *other != register)
}

fn is_no_location(locations: &[Location], location: Location) -> bool
    ensures { IsTrue result ↔ All (λ l. l ≢ location) locations.now }
{
    locations.iter().all(|other| !is_at(other, &location))
}

fn holds_at_entry(registers: &[Register], locations: &[Location], equation: &Equation) -> bool
    ensures { IsTrue result ↔ HoldsAtEntry registers.now locations.now equation.now }
{
    is_parameter(registers, locations, equation) || is_no_parameter(registers, locations, equation)
}

/// Whether each equation is of a parameter and its location, or of what are no parameter's.
pub fn hold_at_entry(registers: &[Register], locations: &[Location], equations: &[Equation]) -> bool
    ensures { IsTrue result ↔ All (HoldsAtEntry registers.now locations.now) equations.now }
{
    for equation in equations {
        if !holds_at_entry(registers, locations, equation) {
            return false;
        }
    }
    true
}
