//! Lines with no operand, with one, and with two.

ghost use Rattle.std.specs.Prelude.{◌++◌, codes};
ghost use Rattle.native_text.specs.Operands.{place_text};
ghost use Rattle.native_text_doors.specs.Fixed.{labelled};
ghost use Rattle.lang_base.specs.Texts.{Appends};
ghost use Rattle.native_text.specs.Lines.{plain, one, two};
ghost use Rattle.native_text.specs.Words.{verb_text};

use crate::here::Here;
use crate::operand::{Operand, push_operand, push_place};
use crate::words::{Verb, verb_text};
use lang_base::NoMemory;
use text_keys::{end_line, push_bytes};

fn push_verb(out: &mut Vec<u8>, verb: Verb) -> Result<(), NoMemory>
    ensures { Appends result (codes " " ++ verb_text verb) out.old.items out.new.items }
{
    push_bytes(out, b" ")?;
    push_bytes(out, verb_text(verb))
}

pub(crate) fn push_plain(out: &mut Vec<u8>, verb: Verb) -> Result<(), NoMemory>
    ensures { Appends result (plain verb) out.old.items out.new.items }
{
    push_verb(out, verb)?;
    end_line(out)
}

pub(crate) fn push_one(
    out: &mut Vec<u8>,
    here: &Here<'_>,
    verb: Verb,
    a: Operand,
) -> Result<(), NoMemory>
    ensures { Appends result (one here.now verb a) out.old.items out.new.items }
{
    push_verb(out, verb)?;
    push_bytes(out, b" ")?;
    push_operand(out, here, a)?;
    end_line(out)
}

/// The source comes first, then what is changed.
pub(crate) fn push_two(
    out: &mut Vec<u8>,
    here: &Here<'_>,
    verb: Verb,
    a: Operand,
    b: Operand,
) -> Result<(), NoMemory>
    ensures { Appends result (two here.now verb a b) out.old.items out.new.items }
{
    push_verb(out, verb)?;
    push_bytes(out, b" ")?;
    push_operand(out, here, a)?;
    push_bytes(out, b", ")?;
    push_operand(out, here, b)?;
    end_line(out)
}

/// A label of the function.
pub(crate) fn push_label(out: &mut Vec<u8>, here: &Here<'_>, label: u16) -> Result<(), NoMemory>
    ensures { Appends result (labelled (place_text here.now label)) out.old.items out.new.items }
{
    push_place(out, here, label)?;
    push_bytes(out, b":\n")
}
