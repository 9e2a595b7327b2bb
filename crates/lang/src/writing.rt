//! Writers of the parts of a program: each appends the text.

ghost use Rattle.std.specs.Prelude.{◌≤◌, length, All};
ghost use Rattle.lang_base.specs.Texts.{Appends};
ghost use Rattle.lang.specs.Form.{name_text, named_text, global_text, globals_text, head_text};
ghost use Rattle.lang.specs.Fronts.{functions_text};
ghost use Rattle.lang.specs.Shorts.{IsShortNamed, IsShortGlobal};

use lang_base::{Language, Named, NoMemory, push_byte, push_u16, push_u32};
use lang_helpers::{Word, WriteOne, push_each};

fn push_global(out: &mut Vec<u8>, global: &lang_base::Global) -> Result<(), NoMemory>
    requires { IsShortGlobal global.now }
    ensures { Appends result (global_text global.now) out.old.items out.new.items }
{
    push_u32(out, global.cells)?;
    push_u32(out, global.first_words.len() as u32)?;
    push_each::<Word>(out, global.first_words.as_slice())
}

/// Writes globals.
struct Globals;

impl WriteOne for Globals {
    type Item = lang_base::Global;

    ghost text = { global_text };

    ghost is_short = { IsShortGlobal };

    fn push(out: &mut Vec<u8>, item: &lang_base::Global) -> Result<(), NoMemory> {
        push_global(out, item)
    }
}

fn push_globals(out: &mut Vec<u8>, globals: &[lang_base::Global]) -> Result<(), NoMemory>
    requires few { length globals.now ≤ 1024 }
    requires short { All IsShortGlobal globals.now }
    ensures { Appends result (globals_text globals.now) out.old.items out.new.items }
{
    push_u16(out, globals.len() as u16)?;
    push_each::<Globals>(out, globals)
}

/// What stands before the functions.
pub fn push_head(
    out: &mut Vec<u8>,
    tag: u8,
    globals: &[lang_base::Global],
    count: u8,
) -> Result<(), NoMemory>
    requires few { length globals.now ≤ 1024 }
    requires short { All IsShortGlobal globals.now }
    ensures { Appends result (head_text tag (globals.now, count)) out.old.items out.new.items }
{
    push_byte(out, b'C')?;
    push_byte(out, b'F')?;
    push_byte(out, b'P')?;
    push_byte(out, b'1')?;
    push_byte(out, tag)?;
    push_globals(out, globals)?;
    push_byte(out, count)
}

fn push_name(out: &mut Vec<u8>, name: &[u8]) -> Result<(), NoMemory>
    requires { length name.now ≤ 255 }
    ensures { Appends result (name_text name.now) out.old.items out.new.items }
{
    push_byte(out, name.len() as u8)?;
    out.extend_from_slice(name)?;
    Ok(())
}

fn push_named<L: Language>(out: &mut Vec<u8>, named: &Named<L::Fun>) -> Result<(), NoMemory>
    requires { IsShortNamed named.now }
    ensures { Appends result (named_text L.spelling named.now) out.old.items out.new.items }
{
    push_name(out, named.name.as_slice())?;
    L::write(&named.function, out)
}

/// Functions and their names.
pub fn push_functions<L: Language>(
    out: &mut Vec<u8>,
    functions: &[Named<L::Fun>],
) -> Result<(), NoMemory>
    requires { All IsShortNamed functions.now }
    ensures { Appends result (functions_text L.spelling functions.now) out.old.items out.new.items }
{
    for function in functions {
        push_named::<L>(out, function)?;
    }
    Ok(())
}
