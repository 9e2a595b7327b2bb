//! Causes as they are told.

ghost use Rattle.std.specs.Prelude.{◌≡◌, ◌∷◌, []};
ghost use Rattle.lang_base.specs.Texts.{Appends};
ghost use Rattle.cfarm_explain.specs.Causes.{is_name_byte, leading_name, name_at, past_text, cause_text, size_of};

use c_faults::Cause;
use c_program::GlobalVariable;
use cfarm_explain_words::{push_index, push_one, push_two};
use lang_base::NoMemory;
use text_keys::{push_bytes, push_number};

/// A letter, a digit or `_`.
fn is_name_byte(byte: u8) -> bool
    ensures { result ≡ is_name_byte byte }
{
    (97 <= byte && byte <= 122)
        || (65 <= byte && byte <= 90)
        || (48 <= byte && byte <= 57)
        || byte == 95
}

/// The name that bytes begin with.
#[tactic(auto, using(crate::proofs::Names::name_ends, crate::proofs::Names::name_goes_on, crate::proofs::Names::name_is_all))]
fn leading_name(bytes: &[u8]) -> &[u8]
    ensures { result.now ≡ leading_name bytes.now }
{
    for count in 0..bytes.len() {
        if !is_name_byte(bytes[count]) {
            return &bytes[..count];
        }
    }
    bytes
}

/// The name that stands at an offset of a text.
fn name_at(text: &[u8], at: usize) -> &[u8]
    ensures { result.now ≡ name_at text.now at }
{
    if at < text.len() {
        leading_name(&text[at..])
    } else {
        &[]
    }
}

/// How many cells a global has.
fn size_of(globals: &[GlobalVariable], number: usize) -> usize
    ensures { result ≡ size_of globals.now number }
{
    if number < globals.len() {
        globals[number].cells
    } else {
        0
    }
}

/// Writes which index is past a global whose name stands at an offset.
fn push_past(
    out: &mut Vec<u8>,
    text: &[u8],
    at: usize,
    index: u32,
    size: usize,
) -> Result<(), NoMemory>
    ensures { Appends result (past_text (name_at text.now at) index size) out.old.items out.new.items }
{
    push_bytes(out, b"index ")?;
    push_index(out, index)?;
    push_bytes(out, b" is not below ")?;
    push_number(out, size as u64)?;
    push_bytes(out, b", the size of ")?;
    push_bytes(out, name_at(text, at))
}

/// Writes a cause whose place this is.
pub fn push_cause(
    out: &mut Vec<u8>,
    globals: &[GlobalVariable],
    text: &[u8],
    at: usize,
    cause: Cause,
) -> Result<(), NoMemory>
    ensures { Appends result (cause_text globals.now (name_at text.now at) cause) out.old.items out.new.items }
{
    match cause {
        Cause::Unset => {
            push_bytes(out, name_at(text, at))?;
            push_bytes(out, b" is read before it is set")
        }
        Cause::Past(global, index) => push_past(out, text, at, index, size_of(globals, global)),
        Cause::One(_, word) => push_one(out, word),
        Cause::Two(op, first, second) => push_two(out, op, first, second),
        Cause::NoReturn => push_bytes(out, b"a function with a value ends here and returns none"),
        Cause::Malformed => push_bytes(out, b"this stands for nothing"),
    }
}
