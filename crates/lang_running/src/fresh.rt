//! The words of a function that begins.

ghost use Rattle.std.specs.Prelude.{◌≡◌, ◌++◌, None, replicate, OnOk};

use lang_base::NoMemory;

/// So many words more, none of them defined.
pub fn push_undefined(words: &mut Vec<Option<u32>>, count: usize) -> Result<(), NoMemory>
    ensures { OnOk result (words.new.items ≡ words.old.items ++ replicate count None) }
{
    let Some(total) = words.len().checked_add(count) else {
        return Err(NoMemory);
    };
    words.resize(total, None)?;
    Ok(())
}
