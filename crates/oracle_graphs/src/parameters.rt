//! Where parameters lie, and the arguments of calls.

ghost use Rattle.std.specs.Prelude.{◌≡◌, ◌≢◌, ◌↔◌, length, All, IfOk, IfSome, IsTrue};
ghost use Rattle.locations.specs.Fits.{LocationFits, AreDistinct};

use crate::assignment::Assignment;
use lang_base::NoMemory;
use locations::Location;
use rtl_acts::Register;
use std::alloc::Global;

/// Where each of the registers lies.
pub fn locations_of(
    alloc: Global,
    assignment: &Assignment,
    registers: &[Register],
) -> Result<Vec<Location>, NoMemory>
    ensures count { IfOk result (λ made. length made.items ≡ length registers.now) }
    ensures fit { IfOk result (λ made. All (LocationFits assignment.now.slots) made.items) }
{
    let mut made = Vec::new(alloc);
    for register in registers {
        made.push(assignment.location_of(*register))?;
    }
    Ok(made)
}

fn is_at(location: &Location, other: &Location) -> bool
    ensures { IsTrue result ↔ (location.now ≡ other.now) }
{
    location == other
}

fn is_none(locations: &[Location], location: Location) -> bool
    ensures { IsTrue result ↔ All (λ l. l ≢ location) locations.now }
{
    locations.iter().all(|other| !is_at(other, &location))
}

/// Whether no two of the locations are one: a function has at most sixteen parameters.
pub fn are_distinct(locations: &[Location]) -> bool
    ensures { IsTrue result → AreDistinct locations.now }
{
    for (i, location) in locations.iter().enumerate() {
        if !is_none(&locations[..i], *location) {
            return false;
        }
    }
    true
}
