//! Whether equations are few, in range and in order.

ghost use Rattle.std.specs.Prelude.{◌↔◌, All, IsTrue};
ghost use Rattle.locations.specs.Fits.{LocationFits};
ghost use Rattle.alloc_check_fill.specs.Rules.{EquationFits, IsInOrder};
ghost use Rattle.alloc_check_lists.specs.Ranks.{RiseFrom};

use alloc_check_fill::{Equation, rank};
use locations::{Location, REGISTER_COUNT};

/// Whether the equations can be those of a row: few, in range and in order.
pub fn is_in_order(registers: u16, slots: u16, equations: &[Equation]) -> bool
    ensures { IsTrue result ↔ IsInOrder registers slots equations.now }
{
    equations.len() <= usize::from(u16::MAX) && fit(registers, slots, equations) && rise(equations)
}

/// Whether each equation names what can be there.
fn fit(registers: u16, slots: u16, equations: &[Equation]) -> bool
    ensures { IsTrue result ↔ All (EquationFits registers slots) equations.now }
{
    equations
        .iter()
        .all(|equation| fits(registers, slots, equation))
}

fn fits(registers: u16, slots: u16, equation: &Equation) -> bool
    ensures { IsTrue result ↔ EquationFits registers slots equation.now }
{
    equation.register < registers && location_fits(slots, &equation.location)
}

fn location_fits(slots: u16, location: &Location) -> bool
    ensures { IsTrue result ↔ LocationFits slots location.now }
{
    match location {
        Location::InRegister(register) => *register < REGISTER_COUNT,
        Location::InSlot(slot) => *slot < slots,
    }
}

/// Whether each rank is above those before it.
fn rise(equations: &[Equation]) -> bool
    ensures { IsTrue result ↔ RiseFrom 0 equations.now }
{
    let mut lower = 0;
    for equation in equations {
        let current = rank(equation);
        if current < lower {
            return false;
        }
        lower = current + 1;
    }
    true
}
