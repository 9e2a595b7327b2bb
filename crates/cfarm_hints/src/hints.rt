//! The hints.

ghost use Rattle.std.specs.Prelude.{◌≡◌, ◌&&◌, [], false, string_bytes};
ghost use Rattle.c_hints.specs.Hints.{IsHint};
ghost use Rattle.c_hints_words.specs.Standing.{IsDeclaredAt};
ghost use Rattle.c_texts.specs.Refusals.{number_of, offset_of};
ghost use Rattle.cfarm_hints.specs.Faults.{IsHintOfFault, IsHintWhere};

use crate::explaining::explanation;
use c_hints::{declared_at, hint_at};
use c_places::Place;
use cfarm_output::Paced;
use cfarm_run::{CommandError, TextError, sentence_of};
use lang_base::Shown;
use std::alloc::Global;
use std::io::Write;

/// What is shown behind the line of a C program that is still running.
const DEEPER: &str =
    "the bound was reached: `--depth N` sets how many turns and calls may stand in one another\n";

/// What is shown behind the line of a linked program that is still running.
const LONGER: &str = "the bound was reached: `--limit N` sets how many instructions may be done\n";

/// Whether an end of line has to be shown in front of a line, since what the program printed on the same screen does not end with one.
pub fn is_amid<W: Write>(is_seen: bool, out: &Paced<W>) -> bool
    ensures { result ≡ (is_seen && (out.now.is_seen && out.now.is_amid)) }
{
    is_seen && out.is_seen && out.is_amid
}

/// What is shown behind the line of a run of a C program.
pub fn of_depth<'a>(is_seen: bool, shown: Shown) -> &'a str
    ensures { is_seen ≡ false → result.now ≡ [] }
{
    match shown {
        Shown::Running if is_seen => DEEPER,
        _ => "",
    }
}

/// What is shown behind the line of a run of a linked program.
pub fn of_limit<'a>(is_seen: bool, shown: Shown) -> &'a str
    ensures { is_seen ≡ false → result.now ≡ [] }
{
    match shown {
        Shown::Running if is_seen => LONGER,
        _ => "",
    }
}

/// The explanation of a fault of the text of the file of this path; nothing where there is no memory for it.
pub fn explained(alloc: Global, path: &str, text: &[u8], fault: TextError) -> String {
    let Some(at) = fault.offset() else {
        return String::new(alloc);
    };
    let sentence = sentence_of(fault);
    match explanation(alloc, path, text, fault.number(), at, sentence) {
        Ok(text) => text,
        Err(_) => String::new(alloc),
    }
}

/// What is said of a fault of a command over a text beside its sentence; nothing where nothing is, or where there is no memory for it.
pub fn hint_of(alloc: Global, text: &[u8], fault: CommandError) -> String
    ensures { IsHintOfFault text.now fault (string_bytes result) }
{
    match fault {
        CommandError::Text(fault) => hint_of_text(alloc, text, fault),
        CommandError::Run(_) => String::new(alloc),
    }
}

/// What is said of a fault of a text; nothing where it has no place.
fn hint_of_text(alloc: Global, text: &[u8], fault: TextError) -> String
    ensures { IsHintWhere text.now (number_of fault) (offset_of fault) (string_bytes result) }
{
    match fault.offset() {
        Some(at) => hint_where(alloc, text, fault.number(), at),
        None => String::new(alloc),
    }
}

/// The hint of a fault of this number at this offset; nothing where there is no memory for it.
#[tactic(auto, using(crate::proofs::Unhinted::unhinted))]
pub fn hint_where(alloc: Global, text: &[u8], number: u16, at: usize) -> String
    ensures { IsHint text.now at number (string_bytes result) }
{
    match hint_at(alloc, text, number, at) {
        Ok(hint) => hint,
        Err(_) => String::new(alloc),
    }
}

/// Where the name that stands at the offset of a fault of what is declared is declared in front, if it is.
pub fn declared_of(text: &[u8], fault: TextError, at: usize) -> Option<Place>
    ensures { IsDeclaredAt text.now at result }
{
    match fault {
        TextError::Check(_) => declared_at(text, at),
        TextError::Lex(_) | TextError::Read(_) => None,
    }
}

/// What is shown behind the line of a command over the text of the file of this path.
pub fn of_text(alloc: Global, is_seen: bool, path: &str, text: &[u8], fault: CommandError) -> String
    ensures { is_seen ≡ false → string_bytes result ≡ [] }
{
    match fault {
        CommandError::Text(fault) if is_seen => explained(alloc, path, text, fault),
        _ => String::new(alloc),
    }
}
