//! Readers of locations and of what is made of them. Each is one function on lists, which says the
//! value and the bytes behind it, or the first fault.

ghost use Rattle.std.specs.Prelude.{◌≡◌, ◌&&◌};
ghost use Rattle.std.specs.List.{list_all};
ghost use Rattle.lang_helpers.specs.Reading.{IsRead, Reads, items_of};
ghost use Rattle.locations.specs.Reading.{register, value, location, is_slot, one_move, moves, target, arguments, call, parameter, parameters, lies_within, frame};

use crate::location::{Location, Move};
use crate::register::{REGISTER_COUNT, Register};
use lang_helpers::{
    FormError, ReadOne, Row, read_byte, read_count, read_function_number, read_so_many, read_u16,
    read_u16_below,
};
use std::alloc::Global;

/// A register.
#[tactic(auto, unfolding(crate::specs::Reading::register))]
pub fn read_register(bytes: &mut &[u8]) -> Result<Register, FormError>
    ensures { IsRead (register bytes.old.now) result bytes.new.now }
{
    let number = read_byte(bytes)?;
    if number < REGISTER_COUNT {
        Ok(number)
    } else {
        Err(FormError::NotCanonical)
    }
}

/// A register, or none.
#[tactic(auto, unfolding(crate::specs::Reading::value))]
pub fn read_value(bytes: &mut &[u8]) -> Result<Option<Register>, FormError>
    ensures { IsRead (value bytes.old.now) result bytes.new.now }
{
    match read_byte(bytes)? {
        0 => Ok(None),
        1 => Ok(Some(read_register(bytes)?)),
        _ => Err(FormError::NotCanonical),
    }
}

/// A location among so many slots.
#[tactic(auto, unfolding(crate::specs::Reading::location))]
fn read_location(slots: u32, bytes: &mut &[u8]) -> Result<Location, FormError>
    ensures { IsRead (location slots bytes.old.now) result bytes.new.now }
{
    match read_byte(bytes)? {
        0 => Ok(Location::InRegister(read_register(bytes)?)),
        1 => Ok(Location::InSlot(read_u16_below(slots, bytes)?)),
        _ => Err(FormError::NotCanonical),
    }
}

fn is_slot(location: &Location) -> bool
    ensures { result ≡ is_slot location.now }
{
    matches!(location, Location::InSlot(_))
}

/// A move: its target, then its source.
#[tactic(auto, unfolding(crate::specs::Reading::one_move))]
pub fn read_move(slots: u32, bytes: &mut &[u8]) -> Result<Move, FormError>
    ensures { IsRead (one_move slots bytes.old.now) result bytes.new.now }
{
    let target = read_location(slots, bytes)?;
    let source = read_location(slots, bytes)?;
    if is_slot(&target) && is_slot(&source) {
        return Err(FormError::NotCanonical);
    }
    Ok(Move { target, source })
}

/// Reads moves among so many slots.
#[derive(Drop)]
struct Moves {
    slots: u32,
}

impl ReadOne for Moves {
    type Item = Move;

    ghost part = { λ reader _. one_move reader.slots };

    fn read(
        &mut self,
        _alloc: Global,
        _before: &[Move],
        bytes: &mut &[u8],
    ) -> Result<Move, FormError> {
        read_move(self.slots, bytes)
    }
}

/// The moves of one list.
#[tactic(auto, unfolding(crate::specs::Reading::moves))]
pub fn read_moves(alloc: Global, slots: u32, bytes: &mut &[u8]) -> Result<Row<Move>, FormError>
    ensures { Reads (moves slots bytes.old.now) result bytes.new.now }
{
    let count = read_byte(bytes)?;
    let moves = read_so_many(alloc, Moves { slots }, u32::from(count), bytes)?;
    Ok(Row::from_vec(moves))
}

/// A location, or none.
#[tactic(auto, unfolding(crate::specs::Reading::target))]
fn read_target(slots: u32, bytes: &mut &[u8]) -> Result<Option<Location>, FormError>
    ensures { IsRead (target slots bytes.old.now) result bytes.new.now }
{
    match read_byte(bytes)? {
        0 => Ok(None),
        1 => Ok(Some(read_location(slots, bytes)?)),
        _ => Err(FormError::NotCanonical),
    }
}

/// Reads locations among so many slots.
#[derive(Drop)]
struct Locations {
    slots: u32,
}

impl ReadOne for Locations {
    type Item = Location;

    ghost part = { λ reader _. location reader.slots };

    fn read(
        &mut self,
        _alloc: Global,
        _before: &[Location],
        bytes: &mut &[u8],
    ) -> Result<Location, FormError> {
        read_location(self.slots, bytes)
    }
}

/// The number of a call's arguments, and where they lie.
#[tactic(auto, unfolding(crate::specs::Reading::arguments))]
fn read_arguments(alloc: Global, slots: u32, bytes: &mut &[u8]) -> Result<Row<Location>, FormError>
    ensures { Reads (arguments slots bytes.old.now) result bytes.new.now }
{
    let count = read_byte(bytes)?;
    let arguments = read_so_many(alloc, Locations { slots }, u32::from(count), bytes)?;
    Ok(Row::from_vec(arguments))
}

/// What a call names: a function, where the arguments lie, and where the result goes.
#[tactic(auto, unfolding(crate::specs::Reading::call))]
pub fn read_call(
    alloc: Global,
    slots: u32,
    bytes: &mut &[u8],
) -> Result<(u8, (Row<Location>, Option<Location>)), FormError>
    ensures { Reads (call slots bytes.old.now) result bytes.new.now }
{
    let function = read_function_number(bytes)?;
    let arguments = read_arguments(alloc, slots, bytes)?;
    let target = read_target(slots, bytes)?;
    Ok((function, (arguments, target)))
}

/// A location where no parameter before it lies. The slots are counted behind it.
#[tactic(auto, unfolding(crate::specs::Reading::parameter))]
fn read_parameter(before: &[Location], bytes: &mut &[u8]) -> Result<Location, FormError>
    ensures { IsRead (parameter before.now bytes.old.now) result bytes.new.now }
{
    let location = read_location(1 << 16, bytes)?;
    if before.contains(&location) {
        return Err(FormError::NotCanonical);
    }
    Ok(location)
}

/// Reads parameters.
#[derive(Drop)]
struct Parameters;

impl ReadOne for Parameters {
    type Item = Location;

    ghost part = { λ _. parameter };

    fn read(
        &mut self,
        _alloc: Global,
        before: &[Location],
        bytes: &mut &[u8],
    ) -> Result<Location, FormError> {
        read_parameter(before, bytes)
    }
}

#[tactic(auto, unfolding(crate::specs::Reading::parameters))]
fn read_parameters(alloc: Global, bytes: &mut &[u8]) -> Result<Vec<Location>, FormError>
    ensures { Reads (parameters bytes.old.now) (items_of result) bytes.new.now }
{
    let count = read_count(16, bytes)?;
    read_so_many(alloc, Parameters, u32::from(count), bytes)
}

/// Whether each of the locations is a register or one of so many slots.
fn all_within(slots: u16, locations: &[Location]) -> bool
    ensures { result ≡ list_all (lies_within slots) locations.now }
{
    locations.iter().all(|location| match location {
        Location::InRegister(_) => true,
        Location::InSlot(slot) => *slot < slots,
    })
}

/// Where the parameters of a function lie, and the number of its slots.
#[tactic(auto, unfolding(crate::specs::Reading::frame))]
pub fn read_frame(alloc: Global, bytes: &mut &[u8]) -> Result<(Row<Location>, u16), FormError>
    ensures { Reads (frame bytes.old.now) result bytes.new.now }
{
    let parameters = read_parameters(alloc, bytes)?;
    let slots = read_u16(bytes)?;
    if !all_within(slots, &parameters) {
        return Err(FormError::NotCanonical);
    }
    if slots > 2048 {
        return Err(FormError::TooLarge);
    }
    Ok((Row::from_vec(parameters), slots))
}
