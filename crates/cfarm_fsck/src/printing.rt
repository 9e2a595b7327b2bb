//! Printing what is told of a folder. Where the writer or memory fails a beginning of it was printed.

ghost use Rattle.std.specs.Prelude.{◌≡◌, ◌⊎◌, ◌≤◌, ◌<◌, ◌++◌, [], length, codes, IfErr, IfOk};
ghost use Rattle.std.specs.String.{string_bytes};
ghost use Rattle.cfarm_fsck.specs.Printed.{Prints};
ghost use Rattle.cfarm_fsck.specs.Telling.{folder_lines, four_lines, front_lines, journal_line, last_lines, node_lines, rest_of_room, room_line, room_lines, two_lines};

use crate::error::FsckError;
use crate::lines::{node_line, room_rest};
use acceptor_log_form::Record;
use cfarm_fsck_chosen::room_parts;
use cfarm_output::{print_all, print_whole};
use lang_base::{Named, NoMemory};
use paxos_core_world::kept::Kept;
use rtl_language::Function;
use std::alloc::Global;
use std::io::Write;

/// Prints bytes.
fn print_bytes<W: Write>(bytes: &[u8], out: &mut W) -> Result<(), FsckError>
    ensures printed { Prints W.contents bytes.now result out.old out.new }
    ensures err { IfErr result (λ e. (e ≡ FsckError.NoMemory) ⊎ (e ≡ FsckError.Write)) }
{
    match print_all(out, bytes) {
        Ok(()) => Ok(()),
        Err(_) => Err(FsckError::Write),
    }
}

/// Prints the line of a node.
fn print_node<W: Write>(
    alloc: Global,
    node: usize,
    journal: &(usize, Vec<Record>),
    out: &mut W,
) -> Result<(), FsckError>
    ensures printed { Prints W.contents (journal_line node journal.now) result out.old out.new }
    ensures err { IfErr result (λ e. (e ≡ FsckError.NoMemory) ⊎ (e ≡ FsckError.Write)) }
{
    match node_line(alloc, node, journal.1.len(), journal.0) {
        Ok(text) => print_bytes(text.as_bytes(), out),
        Err(_) => Err(FsckError::NoMemory),
    }
}

/// Prints the lines of all nodes.
fn print_nodes<W: Write>(
    alloc: Global,
    journals: &[(usize, Vec<Record>)],
    out: &mut W,
) -> Result<(), FsckError>
    ensures printed { Prints W.contents (node_lines journals.now) result out.old out.new }
    ensures err { IfErr result (λ e. (e ≡ FsckError.NoMemory) ⊎ (e ≡ FsckError.Write)) }
{
    for node in 0..journals.len() {
        match print_node(alloc, node, &journals[node], out) {
            Ok(()) => {}
            Err(fault) => return Err(fault),
        }
    }
    Ok(())
}

/// Prints bytes, and then others.
fn print_both<W: Write>(first: &[u8], second: &[u8], out: &mut W) -> Result<(), FsckError>
    ensures printed { Prints W.contents (first.now ++ second.now) result out.old out.new }
    ensures err { IfErr result (λ e. (e ≡ FsckError.NoMemory) ⊎ (e ≡ FsckError.Write)) }
{
    match print_bytes(first, out) {
        Ok(()) => print_bytes(second, out),
        Err(fault) => Err(fault),
    }
}

/// What is told of the room of a function's pass behind the function's name, the first pass being 0 here.
fn room_text(
    alloc: Global,
    function: u16,
    pass: u8,
    accept: u8,
    kept: &[Vec<Kept>],
) -> Result<String, NoMemory>
    requires function { function < 64 }
    requires pass { pass < 4 }
    ensures { IfOk result (λ text. string_bytes text ≡ rest_of_room accept kept.now function pass) }
{
    match room_parts(alloc, kept, 4 * function + u16::from(pass)) {
        Ok(parts) => room_rest(alloc, pass + 1, accept, &parts),
        Err(NoMemory) => Err(NoMemory),
    }
}

/// Prints the line of such a room.
fn print_room<W: Write>(
    alloc: Global,
    name: &[u8],
    function: u16,
    pass: u8,
    accept: u8,
    kept: &[Vec<Kept>],
    out: &mut W,
) -> Result<(), FsckError>
    requires function { function < 64 }
    requires pass { pass < 4 }
    ensures printed { Prints W.contents (room_line accept kept.now name.now function pass) result out.old out.new }
    ensures err { IfErr result (λ e. (e ≡ FsckError.NoMemory) ⊎ (e ≡ FsckError.Write)) }
{
    match room_text(alloc, function, pass, accept, kept) {
        Ok(text) => print_both(name, text.as_bytes(), out),
        Err(_) => Err(FsckError::NoMemory),
    }
}

/// Prints the lines of the rooms of two passes of a function, of this one and the next.
fn print_two<W: Write>(
    alloc: Global,
    name: &[u8],
    function: u16,
    pass: u8,
    accept: u8,
    kept: &[Vec<Kept>],
    out: &mut W,
) -> Result<(), FsckError>
    requires function { function < 64 }
    requires pass { pass < 3 }
    ensures printed { Prints W.contents (two_lines accept kept.now name.now function pass) result out.old out.new }
    ensures err { IfErr result (λ e. (e ≡ FsckError.NoMemory) ⊎ (e ≡ FsckError.Write)) }
{
    match print_room(alloc, name, function, pass, accept, kept, out) {
        Ok(()) => print_room(alloc, name, function, pass + 1, accept, kept, out),
        Err(fault) => Err(fault),
    }
}

/// Prints the lines of a function's four rooms.
fn print_four<W: Write>(
    alloc: Global,
    name: &[u8],
    function: u16,
    accept: u8,
    kept: &[Vec<Kept>],
    out: &mut W,
) -> Result<(), FsckError>
    requires function { function < 64 }
    ensures printed { Prints W.contents (four_lines accept kept.now name.now function) result out.old out.new }
    ensures err { IfErr result (λ e. (e ≡ FsckError.NoMemory) ⊎ (e ≡ FsckError.Write)) }
{
    match print_two(alloc, name, function, 0, accept, kept, out) {
        Ok(()) => print_two(alloc, name, function, 2, accept, kept, out),
        Err(fault) => Err(fault),
    }
}

/// Prints the lines of the rooms of this function.
fn print_function<W: Write>(
    alloc: Global,
    function: &Named<Function>,
    number: usize,
    accept: u8,
    kept: &[Vec<Kept>],
    out: &mut W,
) -> Result<(), FsckError>
    requires { number < 64 }
    ensures printed { Prints W.contents (four_lines accept kept.now function.now.name number) result out.old out.new }
    ensures err { IfErr result (λ e. (e ≡ FsckError.NoMemory) ⊎ (e ≡ FsckError.Write)) }
{
    print_four(
        alloc,
        function.name.as_slice(),
        number as u16,
        accept,
        kept,
        out,
    )
}

/// Prints the lines of the rooms of all functions.
fn print_rooms<W: Write>(
    alloc: Global,
    functions: &[Named<Function>],
    accept: u8,
    kept: &[Vec<Kept>],
    out: &mut W,
) -> Result<(), FsckError>
    requires { length functions.now ≤ 64 }
    ensures printed { Prints W.contents (room_lines accept kept.now functions.now) result out.old out.new }
    ensures err { IfErr result (λ e. (e ≡ FsckError.NoMemory) ⊎ (e ≡ FsckError.Write)) }
{
    for number in 0..functions.len() {
        match print_function(alloc, &functions[number], number, accept, kept, out) {
            Ok(()) => {}
            Err(fault) => return Err(fault),
        }
    }
    Ok(())
}

/// Prints that all is well, and flushes.
fn print_ok<W: Write>(out: &mut W) -> Result<(), FsckError>
    ensures printed { Prints W.contents (codes "ok\n") result out.old out.new }
    ensures err { IfErr result (λ e. (e ≡ FsckError.NoMemory) ⊎ (e ≡ FsckError.Write)) }
{
    match print_whole(out, b"ok\n") {
        Ok(()) => Ok(()),
        Err(_) => Err(FsckError::Write),
    }
}

/// Prints the lines of all rooms and the last one, and flushes them.
fn print_rest<W: Write>(
    alloc: Global,
    functions: &[Named<Function>],
    accept: u8,
    kept: &[Vec<Kept>],
    out: &mut W,
) -> Result<(), FsckError>
    requires { length functions.now ≤ 64 }
    ensures printed { Prints W.contents (last_lines accept kept.now functions.now) result out.old out.new }
    ensures err { IfErr result (λ e. (e ≡ FsckError.NoMemory) ⊎ (e ≡ FsckError.Write)) }
{
    match print_rooms(alloc, functions, accept, kept, out) {
        Ok(()) => print_ok(out),
        Err(fault) => Err(fault),
    }
}

/// Prints all lines, and flushes them.
pub(crate) fn print_folder<W: Write>(
    alloc: Global,
    functions: &[Named<Function>],
    accept: u8,
    journals: &[(usize, Vec<Record>)],
    kept: &[Vec<Kept>],
    out: &mut W,
) -> Result<(), FsckError>
    requires { length functions.now ≤ 64 }
    ensures printed { Prints W.contents (folder_lines accept functions.now journals.now kept.now) result out.old out.new }
    ensures err { IfErr result (λ e. (e ≡ FsckError.NoMemory) ⊎ (e ≡ FsckError.Write)) }
{
    match print_nodes(alloc, journals, out) {
        Ok(()) => print_rest(alloc, functions, accept, kept, out),
        Err(fault) => Err(fault),
    }
}

/// Flushes what was printed.
fn flush<W: Write>(out: &mut W) -> Result<(), FsckError>
    ensures printed { Prints W.contents [] result out.old out.new }
    ensures err { IfErr result (λ e. (e ≡ FsckError.NoMemory) ⊎ (e ≡ FsckError.Write)) }
{
    match print_whole(out, b"") {
        Ok(()) => Ok(()),
        Err(_) => Err(FsckError::Write),
    }
}

/// Prints the lines of all rooms, and flushes them.
fn print_rooms_whole<W: Write>(
    alloc: Global,
    functions: &[Named<Function>],
    accept: u8,
    kept: &[Vec<Kept>],
    out: &mut W,
) -> Result<(), FsckError>
    requires { length functions.now ≤ 64 }
    ensures printed { Prints W.contents (room_lines accept kept.now functions.now) result out.old out.new }
    ensures err { IfErr result (λ e. (e ≡ FsckError.NoMemory) ⊎ (e ≡ FsckError.Write)) }
{
    match print_rooms(alloc, functions, accept, kept, out) {
        Ok(()) => flush(out),
        Err(fault) => Err(fault),
    }
}

/// Prints all lines but the last, and flushes them.
pub(crate) fn print_front<W: Write>(
    alloc: Global,
    functions: &[Named<Function>],
    accept: u8,
    journals: &[(usize, Vec<Record>)],
    kept: &[Vec<Kept>],
    out: &mut W,
) -> Result<(), FsckError>
    requires { length functions.now ≤ 64 }
    ensures printed { Prints W.contents (front_lines accept functions.now journals.now kept.now) result out.old out.new }
    ensures err { IfErr result (λ e. (e ≡ FsckError.NoMemory) ⊎ (e ≡ FsckError.Write)) }
{
    match print_nodes(alloc, journals, out) {
        Ok(()) => print_rooms_whole(alloc, functions, accept, kept, out),
        Err(fault) => Err(fault),
    }
}
