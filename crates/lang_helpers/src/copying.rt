//! Copies of lists, and of global variables.

ghost use Rattle.std.specs.Prelude.{◌≡◌, IfOk};

use lang_base::{NoMemory, Row};
use std::alloc::Global;

/// Copies one of a kind.
pub trait CopyOne {
    /// What is copied.
    type Item: Drop;

    /// An equal one.
    fn copy_one(alloc: Global, item: &Self::Item) -> Result<Self::Item, NoMemory>
        ensures { IfOk result (λ copied. copied ≡ item.now) };
}

/// Equal ones, in the same order.
pub fn copy_each<C: CopyOne>(alloc: Global, items: &[C::Item]) -> Result<Vec<C::Item>, NoMemory>
    ensures { IfOk result (λ copied. copied.items ≡ items.now) }
{
    let mut copied = Vec::new(alloc);
    for item in items {
        copied.push(C::copy_one(alloc, item)?)?;
    }
    Ok(copied)
}

impl CopyOne for lang_base::Global {
    type Item = lang_base::Global;

    fn copy_one(alloc: Global, item: &lang_base::Global) -> Result<lang_base::Global, NoMemory> {
        Ok(lang_base::Global {
            cells: item.cells,
            first_words: item.first_words.copied(alloc)?,
        })
    }
}

/// The same global variables, in memory of their own.
pub fn copy_globals(
    alloc: Global,
    globals: &Row<lang_base::Global>,
) -> Result<Row<lang_base::Global>, NoMemory>
    ensures { IfOk result (λ copied. copied ≡ globals.now) }
{
    let copied = copy_each::<lang_base::Global>(alloc, globals.as_slice())?;
    Ok(Row::from_vec(copied))
}
