//! Readers of globals. Each is one function on lists, which says the value and the bytes behind it,
//! or the first fault.

ghost use Rattle.std.specs.Prelude.{◌≡◌, ◌+◌, ◌≤◌, IfOk};
ghost use Rattle.lang_base.specs.Reading.{IsRead, Reads, items_of};
ghost use Rattle.lang.specs.Form.{ends_well, cell_limit, cells_of_all};
ghost use Rattle.lang.specs.Reading.{cells, words, global, globals};

use lang_base::{FormError, Row, read_u16, read_u32};
use lang_helpers::{ReadOne, Word, read_so_many};
use std::alloc;

/// The number of a global's cells, behind globals of so many.
#[tactic(auto, unfolding(crate::specs::Reading::cells))]
fn read_cells(total: u32, bytes: &mut &[u8]) -> Result<u32, FormError>
    ensures read { IsRead (cells total bytes.old.now) result bytes.new.now }
    ensures few { IfOk result (λ n. total + n ≤ cell_limit) }
{
    let cells = read_u32(bytes)?;
    if cells == 0 {
        return Err(FormError::NotCanonical);
    }
    if cells > 65_536_u32.saturating_sub(total) {
        return Err(FormError::TooLarge);
    }
    Ok(cells)
}

/// Whether the last word is not 0, where there are any.
fn ends_well(words: &[u32]) -> bool
    ensures { result ≡ ends_well words.now }
{
    words.is_empty() || words[words.len() - 1] != 0
}

/// The listed words, behind their number.
#[tactic(auto, unfolding(crate::specs::Reading::words))]
fn read_words(alloc: alloc::Global, cells: u32, bytes: &mut &[u8]) -> Result<Vec<u32>, FormError>
    ensures { Reads (words cells bytes.old.now) (items_of result) bytes.new.now }
{
    let count = read_u32(bytes)?;
    if count > cells {
        return Err(FormError::NotCanonical);
    }
    let words = read_so_many(alloc, Word, count, bytes)?;
    if ends_well(&words) {
        Ok(words)
    } else {
        Err(FormError::NotCanonical)
    }
}

/// A global behind others of so many cells.
#[tactic(auto, unfolding(crate::specs::Reading::global))]
fn read_global(
    alloc: alloc::Global,
    total: u32,
    bytes: &mut &[u8],
) -> Result<lang_base::Global, FormError>
    ensures read { Reads (global total bytes.old.now) result bytes.new.now }
    ensures few { IfOk result (λ g. total + g.cells ≤ cell_limit) }
{
    let cells = read_cells(total, bytes)?;
    let first_words = read_words(alloc, cells, bytes)?;
    Ok(lang_base::Global {
        cells,
        first_words: Row::from_vec(first_words),
    })
}

/// Reads globals, and counts the cells of those before.
#[derive(Drop)]
struct Globals {
    total: u32,
}

impl ReadOne for Globals {
    type Item = lang_base::Global;

    ghost part = { λ _ before. global (cells_of_all before) };

    ghost keeps = { λ reader before. (reader.total ≡ cells_of_all before) × (reader.total ≤ cell_limit) };

    fn read(
        &mut self,
        alloc: alloc::Global,
        _before: &[lang_base::Global],
        bytes: &mut &[u8],
    ) -> Result<lang_base::Global, FormError> {
        let global = read_global(alloc, self.total, bytes)?;
        self.total += global.cells;
        Ok(global)
    }
}

/// The globals, behind their number.
#[tactic(auto, unfolding(crate::specs::Reading::globals))]
pub fn read_globals(
    alloc: alloc::Global,
    bytes: &mut &[u8],
) -> Result<Row<lang_base::Global>, FormError>
    ensures { Reads (globals bytes.old.now) result bytes.new.now }
{
    let count = read_u16(bytes)?;
    if count > 1024 {
        return Err(FormError::TooLarge);
    }
    let globals = read_so_many(alloc, Globals { total: 0 }, u32::from(count), bytes)?;
    Ok(Row::from_vec(globals))
}
