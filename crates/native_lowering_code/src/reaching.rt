//! The blocks that read and write cells of globals.

ghost use Rattle.native_lowering_definition.specs.Reaching.{loads_tested, loads, stores_tested, stores};
ghost use Rattle.native_lowering_code.specs.Adding.{Adds};

use crate::adding::add;
use crate::registers::register_of;
use lang_base::NoMemory;
use x86_syntax::{Condition, Instruction};

fn add_load_tested(
    out: &mut Vec<Instruction>,
    target: u8,
    global: u16,
    index: u8,
    cells: u32,
) -> Result<(), NoMemory>
    ensures { Adds result (loads_tested target global index cells) out.old.items out.new.items }
{
    let (target, index) = (register_of(target), register_of(index));
    let compare = Instruction::CompareWith {
        left: index,
        word: cells,
    };
    let stop = Instruction::StopIf {
        condition: Condition::AboveOrEqual,
    };
    let load = Instruction::Load {
        target,
        global,
        index,
    };
    add(out, &[compare, stop, load])
}

/// Reads a cell of a global with so many cells, if it is there, by an index that may be known.
pub fn add_load(
    out: &mut Vec<Instruction>,
    target: u8,
    global: u16,
    index: u8,
    cells: Option<u32>,
    known: Option<u32>,
) -> Result<(), NoMemory>
    ensures { Adds result (loads target global index cells known) out.old.items out.new.items }
{
    match cells {
        None => add(out, &[Instruction::Stop]),
        Some(cells) => match known {
            None => add_load_tested(out, target, global, index, cells),
            Some(cell) => {
                if cell < cells {
                    let target = register_of(target);
                    let load = Instruction::LoadAt {
                        target,
                        global,
                        cell,
                    };
                    add(out, &[load])
                } else {
                    add_load_tested(out, target, global, index, cells)
                }
            }
        },
    }
}

fn add_store_tested(
    out: &mut Vec<Instruction>,
    global: u16,
    index: u8,
    source: u8,
    cells: u32,
) -> Result<(), NoMemory>
    ensures { Adds result (stores_tested global index source cells) out.old.items out.new.items }
{
    let (index, source) = (register_of(index), register_of(source));
    let compare = Instruction::CompareWith {
        left: index,
        word: cells,
    };
    let stop = Instruction::StopIf {
        condition: Condition::AboveOrEqual,
    };
    let store = Instruction::Store {
        global,
        index,
        source,
    };
    add(out, &[compare, stop, store])
}

/// Writes such a cell.
pub fn add_store(
    out: &mut Vec<Instruction>,
    global: u16,
    index: u8,
    source: u8,
    cells: Option<u32>,
    known: Option<u32>,
) -> Result<(), NoMemory>
    ensures { Adds result (stores global index source cells known) out.old.items out.new.items }
{
    match cells {
        None => add(out, &[Instruction::Stop]),
        Some(cells) => match known {
            None => add_store_tested(out, global, index, source, cells),
            Some(cell) => {
                if cell < cells {
                    let source = register_of(source);
                    let store = Instruction::StoreAt {
                        global,
                        cell,
                        source,
                    };
                    add(out, &[store])
                } else {
                    add_store_tested(out, global, index, source, cells)
                }
            }
        },
    }
}
