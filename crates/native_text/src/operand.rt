//! What an instruction is done to.

ghost use Rattle.std.specs.Prelude.{◌++◌, codes, decimal, slice_get, ◌*◌};
ghost use Rattle.lang_base.specs.Texts.{Appends};
ghost use Rattle.native_text.specs.Operands.{named, place_text, global_text, indexed_text, at_text, operand_text};

use crate::here::Here;
use crate::words::{name_of, push_signed, wide_name_of};
use lang_base::NoMemory;
use text_keys::{push_bytes, push_number};
use x86_syntax::Register;

/// An operand.
#[derive(Clone, Copy)]
pub enum Operand {
    Of(Register),
    Word(u32),
    /// A cell of the stack.
    Cell(u16),
    /// The bytes of so many cells.
    Cells(u16),
    /// A cell of a global, by a register.
    Indexed(u16, Register),
    /// A cell of a global, by its number.
    At(u16, u32),
    /// A label of the function.
    Place(u16),
    /// A function.
    Called(u8),
    /// The low byte of ecx.
    Count,
    /// The low byte of eax.
    Low,
    /// The top of the stack.
    Top,
    /// Its limit.
    Limit,
    /// Where a run goes wrong.
    Wrong,
    /// Where it has no room.
    Full,
    /// Where a byte is printed.
    Printer,
}

/// A label of the function.
pub(crate) fn push_place(out: &mut Vec<u8>, here: &Here<'_>, label: u16) -> Result<(), NoMemory>
    ensures { Appends result (place_text here.now label) out.old.items out.new.items }
{
    push_bytes(out, b".L")?;
    push_number(out, here.number as u64)?;
    push_bytes(out, b".")?;
    push_number(out, u64::from(label))
}

/// The distance of a global from the first.
fn push_global(out: &mut Vec<u8>, global: u16) -> Result<(), NoMemory>
    ensures { Appends result (global_text global) out.old.items out.new.items }
{
    push_bytes(out, b"g.")?;
    push_number(out, u64::from(global))?;
    push_bytes(out, b"-.Lglobals")
}

fn push_indexed(out: &mut Vec<u8>, global: u16, index: Register) -> Result<(), NoMemory>
    ensures { Appends result (indexed_text global index) out.old.items out.new.items }
{
    push_global(out, global)?;
    push_bytes(out, b"(%r14,")?;
    push_bytes(out, wide_name_of(index))?;
    push_bytes(out, b",4)")
}

fn push_at(out: &mut Vec<u8>, global: u16, cell: u32) -> Result<(), NoMemory>
    ensures { Appends result (at_text global cell) out.old.items out.new.items }
{
    push_global(out, global)?;
    push_bytes(out, b"+")?;
    push_number(out, 4 * u64::from(cell))?;
    push_bytes(out, b"(%r14)")
}

/// The name of a function, if it is there.
fn push_called(out: &mut Vec<u8>, here: &Here<'_>, function: u8) -> Result<(), NoMemory>
    ensures { Appends result (codes "f." ++ named (slice_get here.now.functions function)) out.old.items out.new.items }
{
    push_bytes(out, b"f.")?;
    match here.functions.get(usize::from(function)) {
        None => Ok(()),
        Some(named) => push_bytes(out, named.name.as_slice()),
    }
}

fn push_bytes_of_cells(out: &mut Vec<u8>, cells: u16) -> Result<(), NoMemory>
    ensures { Appends result (decimal (8 * cells)) out.old.items out.new.items }
{
    push_number(out, 8 * u64::from(cells))
}

fn push_cell(out: &mut Vec<u8>, cell: u16) -> Result<(), NoMemory>
    ensures { Appends result (decimal (8 * cell) ++ codes "(%rsp)") out.old.items out.new.items }
{
    push_bytes_of_cells(out, cell)?;
    push_bytes(out, b"(%rsp)")
}

/// Writes an operand.
pub(crate) fn push_operand(
    out: &mut Vec<u8>,
    here: &Here<'_>,
    operand: Operand,
) -> Result<(), NoMemory>
    ensures { Appends result (operand_text here.now operand) out.old.items out.new.items }
{
    match operand {
        Operand::Of(register) => push_bytes(out, name_of(register)),
        Operand::Word(word) => {
            push_bytes(out, b"$")?;
            push_signed(out, word)
        }
        Operand::Cell(cell) => push_cell(out, cell),
        Operand::Cells(cells) => {
            push_bytes(out, b"$")?;
            push_bytes_of_cells(out, cells)
        }
        Operand::Indexed(global, index) => push_indexed(out, global, index),
        Operand::At(global, cell) => push_at(out, global, cell),
        Operand::Place(label) => push_place(out, here, label),
        Operand::Called(function) => push_called(out, here, function),
        Operand::Count => push_bytes(out, b"%cl"),
        Operand::Low => push_bytes(out, b"%al"),
        Operand::Top => push_bytes(out, b"%rsp"),
        Operand::Limit => push_bytes(out, b"%r15"),
        Operand::Wrong => push_bytes(out, b".Lwrong"),
        Operand::Full => push_bytes(out, b".Lfull"),
        Operand::Printer => push_bytes(out, b".Lput"),
    }
}
