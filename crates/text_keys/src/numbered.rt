//! Items with their numbers: one loop writes each.

ghost use Rattle.std.specs.Prelude.{ℕ, List, ◌<◌};
ghost use Rattle.lang_base.specs.Texts.{Appends};
ghost use Rattle.text_keys.specs.Numbered.{numbered_text};

use lang_base::NoMemory;

/// Writes one of a kind, with its number.
pub trait WriteNumbered {
    /// What is written.
    type Item;

    /// Its text, with its number.
    ghost text: { ℕ → Self.Item → List ℕ };

    /// Writes one at the end of `out`; where memory runs out, a beginning of it is written.
    fn push(out: &mut Vec<u8>, number: u64, item: &Self::Item) -> Result<(), NoMemory>
        ensures { Appends result (text number item.now) out.old.items out.new.items };
}

/// Writes each, one behind the other, numbered from 0.
pub fn push_numbered<W: WriteNumbered>(out: &mut Vec<u8>, items: &[W::Item]) -> Result<(), NoMemory>
    ensures { Appends result (numbered_text W.text 0 items.now) out.old.items out.new.items }
{
    for (number, item) in items.iter().enumerate() {
        W::push(out, number as u64, item)?;
    }
    Ok(())
}
