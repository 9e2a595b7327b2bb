//! What an instruction does to equations, worked out once for all of them.

ghost use Rattle.std.specs.Prelude.{◌≡◌, IsTrue, ◌↔◌};
ghost use Rattle.std.specs.List.{filter};
ghost use Rattle.cse_check.specs.Change.{cells_of_act, cells_by, disturbed, change_of, keeps, ChangesNothing};

use cse_check_rules::{Equation, RightSide, is_load, is_load_from, is_overwritten, made, written};
use rtl_passes_facts::{Act, Instruction, Register};

/// Cells that may hold other words behind an instruction.
#[derive(Clone, Copy)]
pub enum Cells {
    NoCell,
    CellsOf(u16),
    AllCells,
}

/// The equation that an instruction makes, the register that it writes, and the cells that it may change.
#[derive(Clone, Copy)]
pub struct Change {
    pub made: Option<Equation>,
    pub written: Option<Register>,
    pub cells: Cells,
}

fn cells_by_act(act: &Act) -> Cells
    ensures { result ≡ cells_of_act act.now }
{
    match act {
        Act::Store { global, .. } => Cells::CellsOf(*global),
        _ => Cells::NoCell,
    }
}

fn cells_changed(instruction: &Instruction) -> Cells
    ensures { result ≡ cells_by instruction.now }
{
    match instruction {
        Instruction::Do { act, .. } => cells_by_act(act),
        Instruction::Call { .. } => Cells::AllCells,
        _ => Cells::NoCell,
    }
}

pub(crate) fn change_by(instruction: &Instruction) -> Change
    ensures { result ≡ change_of instruction.now }
{
    Change {
        made: made(instruction),
        written: written(instruction),
        cells: cells_changed(instruction),
    }
}

fn is_disturbed(cells: Cells, right: &RightSide) -> bool
    ensures { result ≡ disturbed cells right.now }
{
    match cells {
        Cells::NoCell => false,
        Cells::CellsOf(global) => is_load_from(right, global),
        Cells::AllCells => is_load(right),
    }
}

pub(crate) fn is_kept(change: Change, equation: &Equation) -> bool
    ensures { result ≡ keeps change equation.now }
{
    !(is_overwritten(change.written, equation) || is_disturbed(change.cells, &equation.right))
}

/// Whether no register is written and no cell changed.
fn changes_nothing(change: Change) -> bool
    ensures { IsTrue result → ChangesNothing change }
{
    match (change.written, change.cells) {
        (None, Cells::NoCell) => true,
        _ => false,
    }
}

/// Keeps the equations that hold on over the change.
pub(crate) fn keep(equations: &mut Vec<Equation>, change: Change)
    ensures { equations.new.items ≡ filter (keeps change) equations.old.items }
{
    if !changes_nothing(change) {
        equations.retain(|equation| is_kept(change, equation));
    }
}
