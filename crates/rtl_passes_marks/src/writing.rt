//! Writers of rows.

ghost use Rattle.std.specs.Prelude.{◌≡◌, ◌<◌, ◌^◌, ◌++◌, length, All, OnOk, OnErr};
ghost use Rattle.lang_base.specs.Texts.{Appends};
ghost use Rattle.rtl_passes.specs.ListForm.{list_text};
ghost use Rattle.rtl_passes_marks.specs.RowForm.{row_text, rows_text};
ghost use Rattle.rtl_passes_marks.specs.Short.{IsShort, AreShort};

use crate::entries::Entries;
use crate::row::NodeRow;
use lang_base::{NoMemory, push_u16};
use rtl_passes::{WriteOne, push_each};
use std::marker::PhantomData;

/// Writes an entry.
struct OfEntry<E: Entries> {
    _of: PhantomData<E>,
}

impl<E: Entries> WriteOne for OfEntry<E> {
    type Item = E::Entry;

    ghost text = { E.text };

    fn push(out: &mut Vec<u8>, item: &E::Entry) -> Result<(), NoMemory> {
        E::push_entry(out, item)
    }
}

fn push_list<E: Entries>(out: &mut Vec<u8>, entries: &[E::Entry]) -> Result<(), NoMemory>
    requires { length entries.now < 2 ^ 16 }
    ensures { Appends result (list_text E.text entries.now) out.old.items out.new.items }
{
    push_u16(out, entries.len() as u16)?;
    push_each::<OfEntry<E>>(out, entries)
}

/// Writes a row.
struct OfRow<E: Entries> {
    _of: PhantomData<E>,
}

impl<E: Entries> WriteOne for OfRow<E> {
    type Item = NodeRow<E::Entry>;

    ghost text = { row_text E.text };

    ghost is_short = { IsShort };

    fn push(out: &mut Vec<u8>, item: &NodeRow<E::Entry>) -> Result<(), NoMemory> {
        push_u16(out, item.node)?;
        push_list::<E>(out, item.entries.as_slice())
    }
}

fn push_rows<E: Entries>(out: &mut Vec<u8>, rows: &[NodeRow<E::Entry>]) -> Result<(), NoMemory>
    requires { AreShort rows.now }
    ensures { Appends result (rows_text E.text rows.now) out.old.items out.new.items }
{
    push_u16(out, rows.len() as u16)?;
    push_each::<OfRow<E>>(out, rows)
}

/// Writes the rows at the end of `out`, which a refusal leaves as it was.
pub fn write_rows<E: Entries>(rows: &[NodeRow<E::Entry>], out: &mut Vec<u8>) -> Result<(), NoMemory>
    requires { AreShort rows.now }
    ensures ok { OnOk result (out.new.items ≡ out.old.items ++ rows_text E.text rows.now) }
    ensures err { OnErr result (out.new.items ≡ out.old.items) }
{
    let length = out.len();
    let written = push_rows::<E>(out, rows);
    if written.is_err() {
        out.truncate(length);
    }
    written
}
