//! Where each register lies: in a register of the machine, or in a slot.

ghost use Rattle.locations.specs.Fits.{LocationFits, TargetFits};
ghost use Rattle.std.specs.Prelude.{◌≡◌, ◌<◌, ◌≤◌, ◌+◌, IsTrue, IfOk, ◌↔◌, if◌then◌else◌};

use lang_base::NoMemory;
use locations::{Location, REGISTER_COUNT};
use rtl_acts::Register;
use std::alloc::Global;

/// A frame has at most so many slots.
const SLOT_LIMIT: u16 = 2048;

/// Where the registers lie, by their numbers, and how many slots that takes.
#[derive(Drop)]
pub struct Assignment {
    pub given: Vec<Option<Location>>,
    pub slots: u16,
    ghost few: { slots ≤ 2048 },
}

impl Assignment {
    /// So many registers, none of which lies anywhere yet.
    pub fn none(alloc: Global, registers: u16) -> Result<Assignment, NoMemory>
        ensures { IfOk result (λ assignment. assignment.slots ≡ 0) }
    {
        Ok(Assignment {
            given: vec![in alloc; None; usize::from(registers)]?,
            slots: 0,
        })
    }

    /// Lets the register lie there, if it is one of them.
    pub fn give(&mut self, register: Register, location: Location)
        ensures { self.new.slots ≡ self.old.slots }
    {
        if let Some(given) = self.given.get_mut(usize::from(register)) {
            *given = Some(location);
        }
    }

    /// Gives a register a slot in which nothing lies yet, if there is one more.
    pub fn give_slot(&mut self, register: Register) -> bool
        ensures told { IsTrue result ↔ (self.old.slots < 2048) }
        ensures slots { self.new.slots ≡ (if result then self.old.slots + 1 else self.old.slots) }
    {
        let slot = self.slots;
        if slot == SLOT_LIMIT {
            return false;
        }
        self.slots = slot + 1;
        self.give(register, Location::InSlot(slot));
        true
    }

    /// Where the register lies: r0 stands for what was given no location, as nothing is.
    pub fn location_of(&self, register: Register) -> Location
        ensures { LocationFits self.now.slots result }
    {
        match self.given.get(usize::from(register)) {
            Some(Some(location)) if self.is_there(*location) => *location,
            _ => Location::InRegister(0),
        }
    }

    /// The same for a register, if one is named.
    pub fn location_of_any(&self, register: Option<Register>) -> Option<Location>
        ensures { TargetFits self.now.slots result }
    {
        match register {
            None => None,
            Some(register) => Some(self.location_of(register)),
        }
    }

    fn is_there(&self, location: Location) -> bool
        ensures { IsTrue result → LocationFits self.now.slots location }
    {
        match location {
            Location::InRegister(register) => register < REGISTER_COUNT,
            Location::InSlot(slot) => slot < self.slots,
        }
    }
}
