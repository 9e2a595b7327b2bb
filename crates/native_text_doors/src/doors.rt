//! The doorways: what C calls.

ghost use Rattle.std.specs.Prelude.{◌≡◌, ◌-◌, ◌+◌, ◌++◌, codes, [], true};
ghost use Rattle.std.specs.List.{list_any};
ghost use Rattle.lang_base.specs.Texts.{Appends};
ghost use Rattle.native_text_doors.specs.Fixed.{labelled};
ghost use Rattle.native_text_doors.specs.Doors.{repeated, text_if, stacked_text, arguments_text, dropped_text, call_text, enters_text, seen_text, called_text, door_text, is_main, begins_text, main_door_text};

use crate::fixed::{push_back, push_kept, push_main, push_result};
use lang_base::{Named, NoMemory};
use text_keys::{end_line, push_bytes, push_number};
use x86_syntax::Function;

/// An argument on the stack, the last of so many that are not yet there.
fn push_stacked(out: &mut Vec<u8>, n: u8) -> Result<(), NoMemory>
    ensures { Appends result (stacked_text n) out.old.items out.new.items }
{
    push_bytes(out, b" pushq ")?;
    push_number(out, 8 * u64::from(n))?;
    push_bytes(out, b"(%rsp)\n")
}

/// The arguments past the sixth of so many.
fn push_all_stacked(out: &mut Vec<u8>, n: u8) -> Result<(), NoMemory>
    ensures { Appends result (repeated (n - 6) (stacked_text n)) out.old.items out.new.items }
{
    let more = n.saturating_sub(6);
    for done in 0..more {
        push_stacked(out, n)?;
        let _ = done;
    }
    Ok(())
}

/// A text, where a condition holds.
fn push_if(out: &mut Vec<u8>, condition: bool, text: &[u8]) -> Result<(), NoMemory>
    ensures { Appends result (text_if condition text.now) out.old.items out.new.items }
{
    if condition {
        push_bytes(out, text)
    } else {
        Ok(())
    }
}

/// The arguments past the fourth of so many, the last first.
fn push_arguments(out: &mut Vec<u8>, n: u8) -> Result<(), NoMemory>
    ensures { Appends result (arguments_text n) out.old.items out.new.items }
{
    push_all_stacked(out, n)?;
    push_if(out, 5 < n, b" pushq %r9\n")?;
    push_if(out, 4 < n, b" pushq %r8\n")
}

/// They are taken off.
fn push_dropped(out: &mut Vec<u8>, n: u8) -> Result<(), NoMemory>
    ensures { Appends result (dropped_text n) out.old.items out.new.items }
{
    if 4 < n {
        push_bytes(out, b" addq $")?;
        push_number(out, 8 * (u64::from(n) - 4))?;
        push_bytes(out, b", %rsp\n")
    } else {
        Ok(())
    }
}

fn push_call(out: &mut Vec<u8>, name: &[u8]) -> Result<(), NoMemory>
    ensures { Appends result (call_text name.now) out.old.items out.new.items }
{
    push_bytes(out, b" call f.")?;
    push_bytes(out, name)?;
    end_line(out)
}

fn push_enters(out: &mut Vec<u8>) -> Result<(), NoMemory>
    ensures { Appends result enters_text out.old.items out.new.items }
{
    push_bytes(out, b" call .Lenter\n")
}

/// A name behind another, and the place that they name.
pub fn push_labelled(out: &mut Vec<u8>, front: &[u8], name: &[u8]) -> Result<(), NoMemory>
    ensures { Appends result (labelled (front.now ++ name.now)) out.old.items out.new.items }
{
    push_bytes(out, front)?;
    push_bytes(out, name)?;
    push_bytes(out, b":\n")
}

/// A name that the linker sees, and its place.
fn push_seen(out: &mut Vec<u8>, prefix: &[u8], name: &[u8]) -> Result<(), NoMemory>
    ensures { Appends result (seen_text (prefix.now ++ name.now)) out.old.items out.new.items }
{
    push_bytes(out, b" .globl ")?;
    push_bytes(out, prefix)?;
    push_bytes(out, name)?;
    end_line(out)?;
    push_labelled(out, prefix, name)
}

/// The function is called behind what a doorway keeps.
fn push_called(out: &mut Vec<u8>, name: &[u8], parameters: u8) -> Result<(), NoMemory>
    ensures { Appends result (called_text name.now parameters) out.old.items out.new.items }
{
    push_arguments(out, parameters)?;
    push_enters(out)?;
    push_call(out, name)?;
    push_dropped(out, parameters)
}

/// The doorway of a function, under a prefix.
pub fn push_door(out: &mut Vec<u8>, prefix: &[u8], named: &Named<Function>) -> Result<(), NoMemory>
    ensures { Appends result (door_text prefix.now named.now) out.old.items out.new.items }
{
    let name = named.name.as_slice();
    push_seen(out, prefix, name)?;
    push_kept(out)?;
    push_called(out, name, named.function.parameters)?;
    push_back(out)
}

/// Whether the function is one where a program can begin.
fn is_main(named: &Named<Function>) -> bool
    ensures { result ≡ is_main named.now }
{
    named.name.as_slice() == b"main".as_slice() && named.function.parameters == 0
}

fn has_main(functions: &[Named<Function>]) -> bool
    ensures { result ≡ list_any is_main functions.now }
{
    for named in functions {
        if is_main(named) {
            return true;
        }
    }
    false
}

fn push_begins(out: &mut Vec<u8>, has_main: bool) -> Result<(), NoMemory>
    ensures { Appends result (begins_text has_main) out.old.items out.new.items }
{
    if has_main {
        push_bytes(out, b" call f.main\n")
    } else {
        push_bytes(out, b" jmp .Lwrong\n")
    }
}

/// The doorway of main.
pub fn push_main_door(out: &mut Vec<u8>, functions: &[Named<Function>]) -> Result<(), NoMemory>
    ensures { Appends result (main_door_text functions.now) out.old.items out.new.items }
{
    push_main(out)?;
    push_kept(out)?;
    push_enters(out)?;
    push_begins(out, has_main(functions))?;
    push_result(out)?;
    push_back(out)
}
