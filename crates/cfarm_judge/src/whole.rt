//! The whole command.

ghost use Rattle.std.specs.Prelude.{◌≡◌, OnOk, IfOk, IfErr};
ghost use Rattle.std.specs.String.{string_bytes};
ghost use Rattle.cfarm_judge.specs.Lines.{accepted_line};
ghost use Rattle.cfarm_judge.specs.Told.{HasJudged, IsJudged, IsUnjudged, IsWant, Printed};
ghost use Rattle.bundle_offers.specs.declared.fault.PassNumber.{PassNumber};

use crate::error::JudgeError;
use crate::finding::place_of;
use crate::judging::judged;
use bundle_offers::PassNumber;
use cfarm_output::print_whole;
use farm_nodes_source::prepare;
use std::alloc::{AllocError, Global};
use std::io::Write;

/// The pass that accepts the offer.
fn accepting(
    alloc: Global,
    text: &[u8],
    name: &[u8],
    offer: &[u8],
) -> Result<PassNumber, JudgeError>
    ensures judged { IfOk result (IsJudged text.now name.now offer.now) }
    ensures refused { IfErr result (IsUnjudged text.now name.now offer.now) }
    ensures only { (pass : PassNumber) → IsJudged text.now name.now offer.now pass → IfErr result IsWant }
{
    let source = match prepare(alloc, text) {
        Ok(source) => source,
        Err(fault) => return Err(JudgeError::Source(fault)),
    };
    let begun = &*source.translated;
    let functions = begun.functions.as_slice();
    let place = match place_of(functions, name) {
        Some(place) => place,
        None => return Err(JudgeError::NoFunction),
    };
    match judged(alloc, &functions[place].function, offer) {
        Ok(pass) => Ok(pass),
        Err(fault) => Err(fault),
    }
}

/// The answer, with the end of the line.
fn line_of(alloc: Global, pass: PassNumber) -> Result<String, AllocError>
    ensures { IfOk result (λ line. string_bytes line ≡ accepted_line pass) }
{
    let number = pass.number();
    format!(in alloc; "accepted pass {number}\n")
}

/// Whether the bytes are a written offer that its pass accepts, and, where it is one of pass 1, whose input is the RTL of the text's
/// function of the name: prints `accepted pass K`, which is flushed. The time is linear in the text and in the offer, as far as the pass's
/// check is.
pub fn judge<W: Write>(
    alloc: Global,
    text: &[u8],
    name: &[u8],
    offer: &[u8],
    out: &mut W,
) -> Result<(), JudgeError>
    // It says yes exactly where the pass that the first byte tells accepts the parts that the bytes spell.
    ensures judged { OnOk result (HasJudged text.now name.now offer.now (W.contents out.old) (W.contents out.new)) }
    // Where it says no, the first reason holds. An offer that is accepted is refused only where memory is, or where the answer cannot
    // be written.
    ensures refused { IfErr result (IsUnjudged text.now name.now offer.now) }
    ensures printed { IfErr result (Printed text.now name.now offer.now (W.contents out.old) (W.contents out.new)) }
    ensures only { (pass : PassNumber) → IsJudged text.now name.now offer.now pass → IfErr result IsWant }
{
    let pass = match accepting(alloc, text, name, offer) {
        Ok(pass) => pass,
        Err(fault) => return Err(fault),
    };
    let Ok(line) = line_of(alloc, pass) else {
        return Err(JudgeError::NoMemory);
    };
    match print_whole(out, line.as_bytes()) {
        Ok(()) => Ok(()),
        Err(_) => Err(JudgeError::Write),
    }
}
