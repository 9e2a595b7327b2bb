//! Certificates, a line for each node's row and for each entry.

ghost use Rattle.std.specs.Prelude.{ℕ, List};
ghost use Rattle.std.specs.List.{flat_map};
ghost use Rattle.lang_base.specs.Texts.{Appends};
ghost use Rattle.text_keys.specs.declared.word.Word.{Word};
ghost use Rattle.text_keys.specs.Lines.{spaced};
ghost use Rattle.text_offers.specs.Lines.{entry_line, row_lines, rows_lines, order_line};

use lang_base::NoMemory;
use lang_helpers::{WriteOne, push_each};
use rtl_passes_marks::NodeRow;
use std::marker::PhantomData;
use text_keys::{SpacedWord, Word as OneWord, end_line, push_bytes, push_each_word, push_word};

/// What a certificate says at a node has words.
pub(crate) trait EntryWords {
    /// What is said.
    type Entry;

    /// Its words.
    ghost words: { Self.Entry → List Word };

    /// Writes the words; where memory runs out, a beginning of them is written.
    fn push(out: &mut Vec<u8>, entry: &Self::Entry) -> Result<(), NoMemory>
        ensures { Appends result (spaced (words entry.now)) out.old.items out.new.items };
}

/// Writes the line of an entry.
struct Line<E: EntryWords> {
    _of: PhantomData<E>,
}

impl<E: EntryWords> WriteOne for Line<E> {
    type Item = E::Entry;

    ghost text = { entry_line E.words };

    fn push(out: &mut Vec<u8>, item: &E::Entry) -> Result<(), NoMemory> {
        push_bytes(out, b" ")?;
        E::push(out, item)?;
        end_line(out)
    }
}

/// Writes the lines of entries.
fn push_entries<E: EntryWords>(out: &mut Vec<u8>, entries: &[E::Entry]) -> Result<(), NoMemory>
    ensures { Appends result (flat_map (entry_line E.words) entries.now) out.old.items out.new.items }
{
    push_each::<Line<E>>(out, entries)
}

/// Writes the lines of a row.
struct OfRow<E: EntryWords> {
    _of: PhantomData<E>,
}

impl<E: EntryWords> WriteOne for OfRow<E> {
    type Item = NodeRow<E::Entry>;

    ghost text = { row_lines E.words };

    fn push(out: &mut Vec<u8>, item: &NodeRow<E::Entry>) -> Result<(), NoMemory> {
        push_bytes(out, b"row")?;
        push_word(out, OneWord::Number(u64::from(item.node)))?;
        end_line(out)?;
        push_entries::<E>(out, item.entries.as_slice())
    }
}

/// Writes the lines of a certificate that has rows for nodes.
pub(crate) fn push_rows<E: EntryWords>(
    out: &mut Vec<u8>,
    rows: &[NodeRow<E::Entry>],
) -> Result<(), NoMemory>
    ensures { Appends result (rows_lines E.words rows.now) out.old.items out.new.items }
{
    push_each::<OfRow<E>>(out, rows)
}

/// A node's number as a word.
struct Node;

impl SpacedWord for Node {
    ghost use Rattle.text_common.specs.Programs.{number_word};

    type Item = u16;

    ghost word = { number_word };

    fn word(item: &u16) -> OneWord {
        OneWord::Number(u64::from(*item))
    }
}

/// Writes the line of an order of nodes.
pub(crate) fn push_order(out: &mut Vec<u8>, nodes: &[u16]) -> Result<(), NoMemory>
    ensures { Appends result (order_line nodes.now) out.old.items out.new.items }
{
    push_bytes(out, b"order")?;
    push_each_word::<Node>(out, nodes)?;
    end_line(out)
}
