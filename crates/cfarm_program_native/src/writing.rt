//! The text of native code, or its header, put or printed.

ghost use Rattle.std.specs.Prelude.{◌≤◌};
ghost use Rattle.cfarm_files.specs.Using.{UsesNone};
ghost use Rattle.cfarm_native.specs.Told.{text_in};
ghost use Rattle.cfarm_program_native.specs.Nativing.{IsAnswered, IsPrinted, MayPut, Natives, Puts, PutsApart};
ghost use Rattle.cfarm_program_status.specs.Reading.{Says};
ghost use Rattle.cfarm_program_status.specs.Trace.{shown, trace};

use crate::choosing::{file_of, form_of};
use cfarm_command_line_tasks::NativeOptions;
use cfarm_files::{FileFault, Files, Reason};
use cfarm_native::{Form, native, native_of};
use cfarm_output::{ErrorLines, Paced};
use cfarm_own_files::is_kept;
use cfarm_program_status::{tell, tell_no_memory, tell_unread};
use std::alloc::Global;
use std::io::Write;

/// Prints the text, or tells why not.
#[tactic(auto, using(crate::proofs::Statuses::in_table))]
fn print_native<W: Write, E: ErrorLines>(
    alloc: Global,
    form: &Form<'_>,
    bytes: &[u8],
    out: &mut Paced<W>,
    err: &mut E,
) -> u8
    ensures does { Says W.contents E.contents (IsPrinted (text_in form.now) bytes.now) (shown result out err) }
    ensures table { result ≤ 7 }
{
    match native(alloc, bytes, form, out) {
        Ok(()) => 0,
        Err(fault) => tell(err, fault, fault.status()),
    }
}

/// Puts the text at this path, or tells that it is refused there.
fn put_text<F: Files, E: ErrorLines>(target: &str, text: &[u8], files: &mut F, err: &mut E) -> u8
    ensures does { IsAnswered E.contents (MayPut F.Files files target.now text.now) result err }
    ensures unused { UsesNone (F.used files.old) (F.used files.new) }
    ensures table { result ≤ 7 }
{
    match files.put_at(target, text) {
        Ok(()) => 0,
        Err(fault) => tell_unread(err, target, fault),
    }
}

/// The same of the text of the bytes, where there is one.
#[tactic(auto, using(crate::proofs::Statuses::in_table))]
fn put_made<F: Files, E: ErrorLines>(
    alloc: Global,
    form: &Form<'_>,
    target: &str,
    bytes: &[u8],
    files: &mut F,
    err: &mut E,
) -> u8
    ensures does { IsAnswered E.contents (PutsApart F.Files files (text_in form.now) target.now bytes.now) result err }
    ensures unused { UsesNone (F.used files.old) (F.used files.new) }
    ensures table { result ≤ 7 }
{
    match native_of(alloc, bytes, form) {
        Ok(text) => put_text(target, &text, files, err),
        Err(fault) => tell(err, fault, fault.status()),
    }
}

/// The same of bytes that were read from the file of the first path, which is kept.
fn put_native<F: Files, E: ErrorLines>(
    alloc: Global,
    form: &Form<'_>,
    path: &str,
    target: &str,
    bytes: &[u8],
    files: &mut F,
    err: &mut E,
) -> u8
    ensures does { IsAnswered E.contents (Puts F.Files files (text_in form.now) path.now target.now bytes.now) result err }
    ensures unused { UsesNone (F.used files.old) (F.used files.new) }
    ensures table { result ≤ 7 }
{
    match is_kept(alloc, &*files, path, target) {
        Ok(is_kept) => {
            if is_kept {
                tell_unread(err, target, FileFault::Refused(Reason::Unsaid))
            } else {
                put_made(alloc, form, target, bytes, files, err)
            }
        }
        Err(_) => tell_no_memory(err),
    }
}

/// `native`: writes the assembly text of the program that the bytes spell, or its header, in a file or on the output, or tells why there is
/// none. The bytes are those of the file of this path.
pub fn write_native<F: Files, W: Write, E: ErrorLines>(
    alloc: Global,
    options: NativeOptions<'_>,
    path: &str,
    bytes: &[u8],
    files: &mut F,
    out: &mut Paced<W>,
    err: &mut E,
) -> u8
    ensures does { Natives F.Files W.Write E.ErrorLines options.entry path.now bytes.now (trace result files out err) }
    ensures table { result ≤ 7 }
{
    let form = form_of(options.written, options.prefix);
    match file_of(options.output) {
        Some(target) => put_native(alloc, &form, path, target, bytes, files, err),
        None => print_native(alloc, &form, bytes, out, err),
    }
}
