use crate::limits::MOST_PLACES;
use lang_base::NoMemory;
use oracle_alloc::RegisterSet;
use rtl_acts::Register;
use std::alloc::Global;

/// Where registers are live, as places by number: those before a node stand one behind another, their registers rising.
#[derive(Drop)]
pub struct Places {
    starts: Vec<u32>,
    registers: Vec<Register>,
}

/// The places before a node: from this number on, and below that one.
#[derive(Clone, Copy)]
pub struct Span {
    pub from: u32,
    pub end: u32,
}

impl Places {
    /// The places of what is live before each node; none where they are too many.
    pub fn of(alloc: Global, live: &[RegisterSet]) -> Result<Option<Places>, NoMemory> {
        let mut places = Places {
            starts: Vec::with_capacity(alloc, live.len())?,
            registers: Vec::new(alloc),
        };
        for set in live {
            let count = places.count();
            places.starts.push(count)?;
            set.push_to(&mut places.registers)?;
            if places.count() > MOST_PLACES {
                return Ok(None);
            }
        }
        Ok(Some(places))
    }

    /// How many there are.
    pub fn count(&self) -> u32 {
        u32::try_from(self.registers.len()).unwrap_or(u32::MAX)
    }

    /// Those before a node.
    pub fn before(&self, node: u16) -> Span {
        let at = usize::from(node);
        let all = self.count();
        Span {
            from: self.starts.get(at).copied().unwrap_or(all),
            end: self
                .starts
                .get(at.saturating_add(1))
                .copied()
                .unwrap_or(all),
        }
    }

    /// The register of a place.
    pub fn register(&self, place: u32) -> Option<Register> {
        self.registers.get(place as usize).copied()
    }

    /// The place of the register, or where it would stand, among those from this one on.
    pub fn seek(&self, span: Span, register: Register) -> u32 {
        for place in span.from..span.end {
            match self.register(place) {
                Some(found) if found < register => {}
                _ => return place,
            }
        }
        span.end
    }

    /// The place of the register before the node, if it is live there.
    pub fn find(&self, node: u16, register: Register) -> Option<u32> {
        let span = self.before(node);
        let place = self.seek(span, register);
        if place < span.end && self.register(place) == Some(register) {
            Some(place)
        } else {
            None
        }
    }
}
