//! How an equation is read: a register and a location.

ghost use Rattle.lang_base.specs.Reading.{IsRead};
ghost use Rattle.locations.specs.Reading.{location};
ghost use Rattle.alloc_check_proof.specs.Reading.{equation};

use alloc_check_rules::Equation;
use lang_base::{FormError, read_byte, read_u16_below};
use locations::{Location, read_register as read_machine_register};
use rtl_acts::read_register;

/// A location among so many slots.
#[tactic(auto, unfolding(locations::specs::Reading::location))]
fn read_location(slots: u32, bytes: &mut &[u8]) -> Result<Location, FormError>
    ensures { IsRead (location slots bytes.old.now) result bytes.new.now }
{
    match read_byte(bytes)? {
        0 => Ok(Location::InRegister(read_machine_register(bytes)?)),
        1 => Ok(Location::InSlot(read_u16_below(slots, bytes)?)),
        _ => Err(FormError::NotCanonical),
    }
}

/// An equation among so many registers and slots.
#[tactic(auto, unfolding(crate::specs::Reading::equation))]
pub fn read_equation(registers: u32, slots: u32, bytes: &mut &[u8]) -> Result<Equation, FormError>
    ensures { IsRead (equation registers slots bytes.old.now) result bytes.new.now }
{
    let register = read_register(registers, bytes)?;
    let location = read_location(slots, bytes)?;
    Ok(Equation { register, location })
}
