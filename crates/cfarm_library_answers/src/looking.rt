//! The commands that write, show or verify a program.

ghost use Rattle.std.specs.Prelude.{◌≡◌};
ghost use Rattle.cfarm_library_answers.specs.Answered.{Gives};
ghost use Rattle.cfarm_library_answers.specs.Outcomes.{Formed, FormedBy, Proven, Texted, form_of};

use crate::answer::{Answer, done, told};
use cfarm_library_verify::VerifyLine;
use cfarm_options::Emitted;
use std::alloc::Global;

/// The form of this number.
fn form_of(number: u32) -> Option<Emitted>
    ensures { result ≡ form_of number }
{
    match number {
        0 => Some(Emitted::Cminor),
        1 => Some(Emitted::Rtl),
        2 => Some(Emitted::Ltl),
        3 => Some(Emitted::Linear),
        4 => Some(Emitted::Bundle),
        _ => None,
    }
}

/// `emit`: a form of an accepted text's program, drawn by the seed where one is given.
fn emit(alloc: Global, text: &[u8], form: Emitted, seed: Option<u64>) -> Answer
    ensures { Gives (Formed text.now form seed) result }
{
    let mut out = Vec::new(alloc);
    match cfarm_emit::emit(alloc, text, form, seed, &mut out) {
        Ok(()) => done(out),
        Err(fault) => {
            let status = fault.status();
            told(alloc, out, fault, status)
        }
    }
}

/// `emit` of the form of this number: 0 to 4 for Cminor, RTL, LTL, Linear and a bundle.
pub fn emit_by(alloc: Global, text: &[u8], form: u32, seed: Option<u64>) -> Answer
    ensures { Gives (FormedBy form text.now seed) result }
{
    match form_of(form) {
        Some(form) => emit(alloc, text, form, seed),
        None => told(alloc, Vec::new(alloc), "form", 2),
    }
}

/// `show`: the text of the program that bytes spell.
pub fn show(alloc: Global, program: &[u8]) -> Answer
    ensures { Gives (Texted program.now) result }
{
    let mut out = Vec::new(alloc);
    match text_files::show(alloc, program, &mut out) {
        Ok(()) => done(out),
        Err(fault) => told(alloc, out, fault, fault.status()),
    }
}

/// `verify` of a text, a program and a bundle. Where one of the two is refused as a file, the line calls it `program` or `bundle`.
pub fn verify(alloc: Global, text: &[u8], program: &[u8], bundle: &[u8]) -> Answer
    ensures { Gives (Proven text.now program.now bundle.now) result }
{
    let mut out = Vec::new(alloc);
    match cfarm_library_verify::verify(alloc, text, program, bundle, &mut out) {
        Ok(()) => done(out),
        Err(fault) => {
            let status = fault.status();
            let line = VerifyLine {
                fault,
                program: "program",
                bundle: "bundle",
            };
            told(alloc, out, line, status)
        }
    }
}
