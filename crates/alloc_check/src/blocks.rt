//! The parts of a block that does what an instruction does: moves from slots before it and to a slot
//! behind it, and the act between them.

ghost use Rattle.std.specs.Prelude.{◌≡◌, [], ◌∷◌, IfOk};
ghost use Rattle.alloc_check.specs.Slots.{fetch, keep, arguments_before, arguments_in, act_before, act_in, act_after};

use lang_base::{NoMemory, Row};
use locations::{Location, Move, Register as MachineRegister};
use rtl_acts::{Act, Arguments, Register};
use std::alloc::Global;

fn fetch(machine_register: MachineRegister, register: Register) -> Move
    ensures { result ≡ fetch machine_register register }
{
    Move {
        target: Location::InRegister(machine_register),
        source: Location::InSlot(register),
    }
}

fn keep(register: Register) -> Move
    ensures { result ≡ keep register }
{
    Move {
        target: Location::InSlot(register),
        source: Location::InRegister(0),
    }
}

pub(crate) fn none(alloc: Global) -> Row<Move>
    ensures { result ≡ [] }
{
    Row::from_vec(Vec::new(alloc))
}

fn one(alloc: Global, first: Move) -> Result<Row<Move>, NoMemory>
    ensures { IfOk result (λ moves. moves ≡ first ∷ []) }
{
    let mut moves = Vec::new(alloc);
    moves.push(first)?;
    Ok(Row::from_vec(moves))
}

fn two(alloc: Global, first: Move, second: Move) -> Result<Row<Move>, NoMemory>
    ensures { IfOk result (λ moves. moves ≡ first ∷ (second ∷ [])) }
{
    let mut moves = Vec::new(alloc);
    moves.push(first)?;
    moves.push(second)?;
    Ok(Row::from_vec(moves))
}

/// One word to r0, and the other to r1.
pub(crate) fn arguments_before(alloc: Global, arguments: &Arguments) -> Result<Row<Move>, NoMemory>
    ensures { IfOk result (λ moves. moves ≡ arguments_before arguments.now) }
{
    match *arguments {
        Arguments::One(a) => one(alloc, fetch(0, a)),
        Arguments::Two(a, b) => two(alloc, fetch(0, a), fetch(1, b)),
    }
}

pub(crate) fn arguments_in(arguments: &Arguments) -> machine::Arguments
    ensures { result ≡ arguments_in arguments.now }
{
    match arguments {
        Arguments::One(_) => machine::Arguments::One(0),
        Arguments::Two(_, _) => machine::Arguments::Two(0, 1),
    }
}

/// One word to r0.
pub(crate) fn fetch_one(alloc: Global, register: Register) -> Result<Row<Move>, NoMemory>
    ensures { IfOk result (λ moves. moves ≡ fetch 0 register ∷ []) }
{
    one(alloc, fetch(0, register))
}

/// What r0 holds to the slot.
fn keep_one(alloc: Global, register: Register) -> Result<Row<Move>, NoMemory>
    ensures { IfOk result (λ moves. moves ≡ keep register ∷ []) }
{
    one(alloc, keep(register))
}

/// The moves before an act.
pub(crate) fn act_before(alloc: Global, act: &Act) -> Result<Row<Move>, NoMemory>
    ensures { IfOk result (λ moves. moves ≡ act_before act.now) }
{
    match act {
        Act::Nop | Act::Constant { .. } => Ok(none(alloc)),
        Act::Move { source, .. } | Act::Put { source, .. } => fetch_one(alloc, *source),
        Act::Operate { arguments, .. } => arguments_before(alloc, arguments),
        Act::Load { index, .. } => fetch_one(alloc, *index),
        Act::Store { index, source, .. } => two(alloc, fetch(0, *index), fetch(1, *source)),
    }
}

/// The act between the moves.
pub(crate) fn act_in(act: &Act) -> Option<machine::Act>
    ensures { result ≡ act_in act.now }
{
    match act {
        Act::Nop | Act::Move { .. } => None,
        Act::Constant { word, .. } => Some(machine::Act::Constant {
            target: 0,
            word: *word,
        }),
        Act::Operate { op, arguments, .. } => Some(machine::Act::Operate {
            op: *op,
            target: 0,
            arguments: arguments_in(arguments),
        }),
        Act::Load { global, .. } => Some(machine::Act::Load {
            target: 0,
            global: *global,
            index: 0,
        }),
        Act::Store { global, .. } => Some(machine::Act::Store {
            global: *global,
            index: 0,
            source: 1,
        }),
        Act::Put { target: None, .. } => Some(machine::Act::Put {
            source: 0,
            target: None,
        }),
        Act::Put {
            target: Some(_),
            ..
        } => Some(machine::Act::Put {
            source: 0,
            target: Some(0),
        }),
    }
}

/// The moves behind an act.
pub(crate) fn act_after(alloc: Global, act: &Act) -> Result<Row<Move>, NoMemory>
    ensures { IfOk result (λ moves. moves ≡ act_after act.now) }
{
    match act {
        Act::Nop | Act::Store { .. } | Act::Put { target: None, .. } => Ok(none(alloc)),
        Act::Constant { target, .. }
        | Act::Move { target, .. }
        | Act::Operate { target, .. }
        | Act::Load { target, .. } => keep_one(alloc, *target),
        Act::Put {
            target: Some(target),
            ..
        } => keep_one(alloc, *target),
    }
}
