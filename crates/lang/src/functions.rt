//! Readers of named functions: a language's reader says which functions have a spelling, and so these
//! say it of named ones.

ghost use Rattle.lang.specs.Form.{named_text, FunctionFits};
ghost use Rattle.lang.specs.Fronts.{Fronts, functions_text, FunctionsFit};

use crate::names::read_name;
use lang_base::{FormError, Language, Named, Row};
use lang_helpers::{are_bytes, is_taken};
use std::alloc::Global;

/// A function and its name, behind others with other names.
fn read_named<L: Language>(
    alloc: Global,
    before: &[Named<L::Fun>],
    bytes: &mut &[u8],
) -> Result<Named<L::Fun>, FormError>
    ensures { Fronts (named_text L.spelling) (FunctionFits L.fits before.now) bytes.old.now result bytes.new.now }
{
    are_bytes(bytes);
    let name = read_name(alloc, bytes)?;
    if is_taken(before, &name) {
        return Err(FormError::NotCanonical);
    }
    let (function, length) = L::read(alloc, bytes)?;
    *bytes = &bytes[length..];
    Ok(Named {
        name: Row::from_vec(name),
        function,
    })
}

/// So many named functions.
pub fn read_functions<L: Language>(
    alloc: Global,
    count: u8,
    bytes: &mut &[u8],
) -> Result<Row<Named<L::Fun>>, FormError>
    ensures { Fronts (functions_text L.spelling) (FunctionsFit L.fits count) bytes.old.now result bytes.new.now }
{
    let mut functions = Vec::new(alloc);
    for _ in 0..count {
        let function = read_named::<L>(alloc, &functions, bytes)?;
        functions.push(function)?;
    }
    Ok(Row::from_vec(functions))
}
