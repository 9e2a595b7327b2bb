//! The frame of a function.

ghost use Rattle.std.specs.Prelude.{◌≡◌, ◌∷◌, ◌++◌, [], ◌-◌, IfOk, OnOk, filter, length, max};
ghost use Rattle.std.specs.List.{list_any};
ghost use Rattle.linear_language.specs.Function.{arguments_of};
ghost use Rattle.native_lowering_definition.specs.Frames.{is_register, target_of_act, target_of, is_there, writes, outs_of, frame_of, size_of, slot_cell, saved_cell, argument_cell};

use lang_base::{NoMemory, Row};
use linear_language::{Function, Instruction};
use locations::Location;
use machine::Act;
use std::alloc::Global;
use std::marker::Model;

/// How many cells it has for arguments past the fourth of a call and for slots, and the registers that it saves.
#[derive(Drop)]
pub struct Frame {
    outs: u8,
    slots: u16,
    saved: Row<u8>,
}

impl Model for Frame {
    ghost use Rattle.std.specs.Prelude.{◌≤◌, length};
    ghost use Rattle.native_lowering_definition.specs.Frames.{Frame};

    ghost Value = { Frame };

    ghost view = { λ f. record { outs = f.outs; slots = f.slots; saved = f.saved } };

    ghost invariant = { λ f. (f.slots ≤ 2048) × (length f.saved ≤ 4) };
}

impl Frame {
    ghost use Rattle.std.specs.Prelude.{◌≡◌, ◌<◌, ◌≤◌, length};
    ghost use Rattle.native_lowering_definition.specs.Frames.{size_of, slot_cell, saved_cell, argument_cell};

    /// The number of its cells.
    pub fn size(&self) -> u16
        ensures value { result ≡ size_of self.now }
        ensures low { result ≤ 2307 }
    {
        u16::from(self.outs) + self.slots + self.saved.len() as u16
    }

    /// The cell of a slot.
    pub fn slot_cell(&self, slot: u16) -> u16
        requires { slot < self.now.slots }
        ensures { result ≡ slot_cell self.now slot }
    {
        u16::from(self.outs) + slot
    }

    /// The first cell of the registers that are saved.
    pub fn saved_cell(&self) -> u16
        ensures value { result ≡ saved_cell self.now }
        ensures low { result ≤ 2303 }
    {
        u16::from(self.outs) + self.slots
    }

    /// The cell of the caller's that has an argument past the fourth.
    pub fn argument_cell(&self, j: u16) -> u16
        requires { j < 256 }
        ensures { result ≡ argument_cell self.now j }
    {
        self.size() + 1 + j
    }

    /// The registers that are saved.
    pub fn saved(&self) -> &[u8]
        ensures registers { result.now ≡ self.now.saved }
        ensures few { length result.now ≤ 4 }
    {
        self.saved.as_slice()
    }
}

fn target_of_act(act: Act) -> Option<Location>
    ensures { result ≡ target_of_act act }
{
    match act {
        Act::Constant { target, .. } => Some(Location::InRegister(target)),
        Act::Operate { target, .. } => Some(Location::InRegister(target)),
        Act::Load { target, .. } => Some(Location::InRegister(target)),
        Act::Store { .. } => None,
        Act::Put { target, .. } => match target {
            None => None,
            Some(r) => Some(Location::InRegister(r)),
        },
    }
}

/// The location that an instruction writes.
fn target_of(instruction: &Instruction) -> Option<Location>
    ensures { result ≡ target_of instruction.now }
{
    match instruction {
        Instruction::Do { act } => target_of_act(*act),
        Instruction::Copy { step } => Some(step.target),
        Instruction::Call { target, .. } => *target,
        Instruction::Branch { .. } => None,
        Instruction::Return { .. } => None,
        Instruction::Label { .. } => None,
        Instruction::Goto { .. } => None,
    }
}

fn is_register(r: u8, location: Location) -> bool
    ensures { result ≡ is_register r location }
{
    match location {
        Location::InRegister(s) => s == r,
        Location::InSlot(_) => false,
    }
}

fn is_there(r: u8, target: Option<Location>) -> bool
    ensures { result ≡ is_there r target }
{
    match target {
        None => false,
        Some(location) => is_register(r, location),
    }
}

fn is_parameter(r: u8, parameters: &[Location]) -> bool
    ensures { result ≡ list_any (is_register r) parameters.now }
{
    for location in parameters {
        if is_register(r, *location) {
            return true;
        }
    }
    false
}

fn is_target(r: u8, code: &[Instruction]) -> bool
    ensures { result ≡ list_any (λ i. is_there r (target_of i)) code.now }
{
    for instruction in code {
        if is_there(r, target_of(instruction)) {
            return true;
        }
    }
    false
}

/// Whether the function writes the register, as a parameter or by an instruction.
fn writes(function: &Function, r: u8) -> bool
    ensures { result ≡ writes function.now r }
{
    is_parameter(r, function.parameters().as_slice()) || is_target(r, function.code().as_slice())
}

/// A register of its caller is saved, where the function writes it.
fn save(saved: &mut Vec<u8>, function: &Function, r: u8) -> Result<(), NoMemory>
    ensures { OnOk result (saved.new.items ≡ saved.old.items ++ filter (writes function.now) (r ∷ [])) }
{
    if writes(function, r) {
        saved.push(r)?;
    }
    Ok(())
}

/// The registers of its caller that it writes.
fn find_saved(alloc: Global, function: &Function) -> Result<Row<u8>, NoMemory>
    ensures { IfOk result (λ saved. saved ≡ filter (writes function.now) (4 ∷ 5 ∷ 6 ∷ 7 ∷ [])) }
{
    let mut saved = Vec::new(alloc);
    save(&mut saved, function, 4)?;
    save(&mut saved, function, 5)?;
    save(&mut saved, function, 6)?;
    save(&mut saved, function, 7)?;
    Ok(Row::from_vec(saved))
}

/// How many arguments past the fourth an instruction passes.
fn outs_at(instruction: &Instruction) -> usize
    ensures { result ≡ length (arguments_of instruction.now) - 4 }
{
    match instruction {
        Instruction::Call { arguments, .. } => arguments.len().saturating_sub(4),
        Instruction::Do { .. } => 0,
        Instruction::Copy { .. } => 0,
        Instruction::Branch { .. } => 0,
        Instruction::Return { .. } => 0,
        Instruction::Label { .. } => 0,
        Instruction::Goto { .. } => 0,
    }
}

fn larger(a: usize, b: usize) -> usize
    ensures { result ≡ max a b }
{
    if a < b { b } else { a }
}

/// The most of them.
fn find_outs(code: &[Instruction]) -> usize
    ensures { result ≡ outs_of code.now }
{
    let mut outs = 0;
    for instruction in code {
        outs = larger(outs, outs_at(instruction));
    }
    outs
}

/// The frame of a function.
pub fn find_frame(alloc: Global, function: &Function) -> Result<Frame, NoMemory>
    ensures { IfOk result (λ frame. frame ≡ frame_of function.now) }
{
    let saved = find_saved(alloc, function)?;
    let outs = find_outs(function.code().as_slice());
    Ok(Frame {
        outs: outs as u8,
        slots: function.slots(),
        saved,
    })
}
