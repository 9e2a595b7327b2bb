//! Readers of rows: their number, and of each the node, the number of its entries and these.

ghost use Rattle.std.specs.Prelude.{◌≡◌, ◌≤◌, List};
ghost use Rattle.lang_base.specs.Reading.{Reads, items_of};
ghost use Rattle.rtl_passes.specs.ListForm.{list};
ghost use Rattle.rtl_passes_marks.specs.RowForm.{row, rows};

use crate::entries::Entries;
use crate::row::NodeRow;
use lang_base::{FormError, Row, read_u16, read_u16_below};
use rtl_passes::{ReadOne, read_so_many};
use std::alloc::Global;
use std::marker::PhantomData;

/// Reads entries.
#[derive(Drop)]
struct EachEntry<E: Entries> {
    size: E::Size,
    of: PhantomData<E>,
}

impl<E: Entries> ReadOne for EachEntry<E> {
    type Item = E::Entry;

    ghost part = { λ reader _. E.part reader.size };

    fn read(
        &mut self,
        _alloc: Global,
        _before: &[E::Entry],
        bytes: &mut &[u8],
    ) -> Result<E::Entry, FormError> {
        E::read_entry(self.size, bytes)
    }
}

/// The entries of a node.
#[tactic(auto, unfolding(rtl_passes::specs::ListForm::list))]
fn read_list<E: Entries>(
    alloc: Global,
    size: E::Size,
    bytes: &mut &[u8],
) -> Result<Row<E::Entry>, FormError>
    ensures { Reads (list (E.part size) bytes.old.now) result bytes.new.now }
{
    let count = read_u16(bytes)?;
    let reader = EachEntry::<E> {
        size,
        of: PhantomData,
    };
    let entries = read_so_many(alloc, reader, u32::from(count), bytes)?;
    Ok(Row::from_vec(entries))
}

/// Reads rows among so many nodes.
#[derive(Drop)]
struct EachRow<E: Entries> {
    size: E::Size,
    nodes: u32,
    of: PhantomData<E>,
}

impl<E: Entries> ReadOne for EachRow<E> {
    type Item = NodeRow<E::Entry>;

    ghost part = { λ reader _. row (E.part reader.size) reader.nodes };

    #[tactic(auto, unfolding(crate::specs::RowForm::row))]
    fn read(
        &mut self,
        alloc: Global,
        _before: &[NodeRow<E::Entry>],
        bytes: &mut &[u8],
    ) -> Result<NodeRow<E::Entry>, FormError> {
        let node = read_u16_below(self.nodes, bytes)?;
        let entries = read_list::<E>(alloc, self.size, bytes)?;
        Ok(NodeRow { node, entries })
    }
}

/// The rows of a function of so many nodes; where the bytes stand after a fault is left open.
#[tactic(auto, unfolding(crate::specs::RowForm::rows))]
pub fn read_rows<E: Entries>(
    alloc: Global,
    size: E::Size,
    nodes: u32,
    bytes: &mut &[u8],
) -> Result<Vec<NodeRow<E::Entry>>, FormError>
    ensures { Reads (rows (E.part size) nodes bytes.old.now) (items_of result) bytes.new.now }
{
    let count = read_u16(bytes)?;
    let reader = EachRow::<E> {
        size,
        nodes,
        of: PhantomData,
    };
    read_so_many(alloc, reader, u32::from(count), bytes)
}
