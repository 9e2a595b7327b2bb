//! Where the words that locations hold behind moves lay before them, found in one pass over the moves.

ghost use Rattle.std.specs.Prelude.{◌≡◌, ◌↔◌, ℕ, IfOk, IsTrue};
ghost use Rattle.locations.specs.declared.location.Location.{Location as location};
ghost use Rattle.alloc_check_rules.specs.Equations.{back};
ghost use Rattle.alloc_check_blocks.specs.Origins.{key, origin, AreOrigins};

use lang_base::NoMemory;
use locations::{Location, Move};
use std::alloc::Global;
use std::collections::BTreeMap;
use std::marker::Model;

/// Moves that are done one after the other, and for each location that they write where the word comes
/// from that it holds behind them.
#[derive(Drop)]
pub(crate) struct Origins<'a> {
    moves: &'a [Move],
    sources: BTreeMap<u32, Location>,
}

impl<'a> Model for Origins<'a> {
    ghost use Rattle.std.specs.Prelude.{List};
    ghost use Rattle.locations.specs.declared.location.Move.{Move};
    ghost use Rattle.alloc_check_blocks.specs.Origins.{AreOrigins};

    ghost Value = { List Move };

    ghost view = { λ o. o.moves.now };

    ghost invariant = { λ o. AreOrigins o.sources o.moves.now };
}

/// Whether the locations are one.
pub fn is_at(location: &Location, other: &Location) -> bool
    ensures { IsTrue result ↔ (location.now ≡ other.now) }
{
    location == other
}

/// A number for each location: even for registers, odd for slots.
fn key_of(location: Location) -> u32
    ensures { result ≡ key location }
{
    match location {
        Location::InRegister(register) => u32::from(register) * 2,
        Location::InSlot(slot) => u32::from(slot) * 2 + 1,
    }
}

/// Where the word comes from that the location holds: itself, where no source is noted.
fn source_of(sources: &BTreeMap<u32, Location>, location: Location) -> Location
    ensures { result ≡ origin sources.now location }
{
    match sources.get(&key_of(location)) {
        Some(source) => *source,
        None => location,
    }
}

/// The sources behind all of the moves.
fn sources_of(alloc: Global, moves: &[Move]) -> Result<BTreeMap<u32, Location>, NoMemory>
    ensures { IfOk result (λ sources. AreOrigins sources moves.now) }
{
    let mut sources = BTreeMap::new(alloc);
    for step in moves {
        let source = source_of(&sources, step.source);
        sources.insert(key_of(step.target), source)?;
    }
    Ok(sources)
}

impl<'a> Origins<'a> {
    /// Those of these moves.
    pub fn of(alloc: Global, moves: &'a [Move]) -> Result<Origins<'a>, NoMemory>
        ensures { IfOk result (λ origins. origins ≡ moves.now) }
    {
        let sources = sources_of(alloc, moves)?;
        Ok(Origins { moves, sources })
    }

    /// Where the word that the location holds behind the moves lay before them.
    pub fn origin_of(&self, location: Location) -> Location
        ensures { result ≡ back self.now location }
    {
        if self.moves.is_empty() {
            return location;
        }
        source_of(&self.sources, location)
    }
}
