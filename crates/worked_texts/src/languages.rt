//! The languages, and what each says of bytes.

use cminor_language::Cminor;
use lang::{read_program, write_program};
use lang_base::Language;
use linear_language::Linear;
use ltl::Ltl;
use rtl_language::Rtl;
use std::alloc::Global;
use worked_row_files::fine;

/// Which language.
#[derive(Clone, Copy)]
pub enum Kind {
    Cminor,
    Rtl,
    Ltl,
    Linear,
}

/// The language that is named.
pub fn kind_of(name: &str) -> Option<Kind> {
    match name {
        "cminor" => Some(Kind::Cminor),
        "rtl" => Some(Kind::Rtl),
        "ltl" => Some(Kind::Ltl),
        "linear" => Some(Kind::Linear),
        _ => None,
    }
}

/// How many of the bytes are a function, if what is read, and its copy, are written as just these; or the number of the fault.
fn form_in<L: Language>(alloc: Global, bytes: &[u8]) -> Option<Result<usize, u16>> {
    let (function, length) = match L::read(alloc, bytes) {
        Ok(found) => found,
        Err(fault) => return Some(Err(fault.number())),
    };
    let copied = fine!(L::copy(alloc, &function));
    let mut written = Vec::new(alloc);
    fine!(L::write(&copied, &mut written));
    let is_same = copied == function && written.as_slice() == &bytes[..length];
    is_same.then_some(Ok(length))
}

/// Whether the functions that the two begin with are equal.
fn are_same_in<L: Language>(alloc: Global, first: &[u8], second: &[u8]) -> Option<bool> {
    let (first, _length) = fine!(L::read(alloc, first));
    let (second, _length) = fine!(L::read(alloc, second));
    Some(first == second)
}

/// The number of the fault of bytes that are no program, or 0, if what is read is all of them and written as just these.
fn program_in<L: Language>(alloc: Global, bytes: &[u8]) -> Option<u16> {
    let (program, length) = match read_program::<L>(alloc, bytes) {
        Ok(found) => found,
        Err(fault) => return Some(fault.number()),
    };
    let mut written = Vec::new(alloc);
    fine!(write_program::<L>(&program, &mut written));
    (length == bytes.len() && written.as_slice() == bytes).then_some(0)
}

/// How many of the bytes are a function of the language, likewise.
pub fn form(alloc: Global, kind: Kind, bytes: &[u8]) -> Option<Result<usize, u16>> {
    match kind {
        Kind::Cminor => form_in::<Cminor>(alloc, bytes),
        Kind::Rtl => form_in::<Rtl>(alloc, bytes),
        Kind::Ltl => form_in::<Ltl>(alloc, bytes),
        Kind::Linear => form_in::<Linear>(alloc, bytes),
    }
}

/// Whether the functions of the language that the two begin with are equal.
pub fn are_same(alloc: Global, kind: Kind, first: &[u8], second: &[u8]) -> Option<bool> {
    match kind {
        Kind::Cminor => are_same_in::<Cminor>(alloc, first, second),
        Kind::Rtl => are_same_in::<Rtl>(alloc, first, second),
        Kind::Ltl => are_same_in::<Ltl>(alloc, first, second),
        Kind::Linear => are_same_in::<Linear>(alloc, first, second),
    }
}

/// The number of the fault of bytes that are no program of the language, likewise.
pub fn program(alloc: Global, kind: Kind, bytes: &[u8]) -> Option<u16> {
    match kind {
        Kind::Cminor => program_in::<Cminor>(alloc, bytes),
        Kind::Rtl => program_in::<Rtl>(alloc, bytes),
        Kind::Ltl => program_in::<Ltl>(alloc, bytes),
        Kind::Linear => program_in::<Linear>(alloc, bytes),
    }
}
