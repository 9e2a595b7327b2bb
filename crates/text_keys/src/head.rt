//! The first line of a function, up to what is told of its size.

ghost use Rattle.std.specs.Prelude.{◌∷◌};
ghost use Rattle.std.specs.List.{flat_map};
ghost use Rattle.lang_base.specs.Texts.{Appends};
ghost use Rattle.text_keys.specs.Words.{word_text};
ghost use Rattle.text_keys.specs.Names.{next_parameter, parameters_text, named_head};

use crate::word::Word;
use crate::writing::{SpacedWord, push_bare, push_bytes};
use lang_base::NoMemory;

/// Writes a parameter with a comma and a blank before it.
fn push_another(out: &mut Vec<u8>, word: Word) -> Result<(), NoMemory>
    ensures { Appends result (44 ∷ 32 ∷ word_text word) out.old.items out.new.items }
{
    push_bytes(out, b", ")?;
    push_bare(out, word)
}

/// Writes each with a comma and a blank before it.
fn push_next<S: SpacedWord>(out: &mut Vec<u8>, items: &[S::Item]) -> Result<(), NoMemory>
    ensures { Appends result (flat_map (next_parameter S.word) items.now) out.old.items out.new.items }
{
    for item in items {
        push_another(out, S::word(item))?;
    }
    Ok(())
}

/// Writes each, with a comma and a blank between each two.
fn push_parameters<S: SpacedWord>(out: &mut Vec<u8>, items: &[S::Item]) -> Result<(), NoMemory>
    ensures { Appends result (parameters_text S.word items.now) out.old.items out.new.items }
{
    match items {
        [] => Ok(()),
        [first, others @ ..] => {
            push_bare(out, S::word(first))?;
            push_next::<S>(out, others)
        }
    }
}

/// Writes a function's name, and its parameters in parentheses.
pub fn push_head<S: SpacedWord>(
    out: &mut Vec<u8>,
    name: &[u8],
    parameters: &[S::Item],
) -> Result<(), NoMemory>
    ensures { Appends result (named_head S.word name.now parameters.now) out.old.items out.new.items }
{
    push_bytes(out, b"function ")?;
    push_bytes(out, name)?;
    push_bytes(out, b"(")?;
    push_parameters::<S>(out, parameters)?;
    push_bytes(out, b")")
}
