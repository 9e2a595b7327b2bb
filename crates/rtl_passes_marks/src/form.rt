//! Whether rows have their form.

ghost use Rattle.std.specs.Prelude.{◌↔◌, ◌≡◌, All, IsTrue};
ghost use Rattle.rtl_passes_marks.specs.Marks.{AreFeeders};
ghost use Rattle.rtl_passes_marks.specs.Ranked.{RiseFrom};
ghost use Rattle.rtl_passes_marks.specs.Rows.{IsRow, AreRows, place_of};
ghost use Rattle.rtl_passes_marks.specs.Within.{IsMarkedWithin};

use crate::entries::Entries;
use crate::row::NodeRow;
use rtl_passes::Function;

/// Whether the rows are for marked nodes, by rising nodes, none of them empty, each with entries in order. What feeds
/// each node was told before.
pub fn are_rows<E: Entries>(
    size: E::Size,
    input: &Function,
    feeders: &[Option<u16>],
    rows: &[NodeRow<E::Entry>],
) -> bool
    requires { AreFeeders input.now.entry input.now.nodes feeders.now }
    ensures { IsTrue result ↔ AreRows (E.in_order size) input.now.entry input.now.nodes rows.now }
{
    are_each::<E>(size, input, feeders, rows) && rise(rows)
}

fn are_each<E: Entries>(
    size: E::Size,
    input: &Function,
    feeders: &[Option<u16>],
    rows: &[NodeRow<E::Entry>],
) -> bool
    requires { AreFeeders input.now.entry input.now.nodes feeders.now }
    ensures { IsTrue result ↔ All (IsRow (E.in_order size) input.now.entry input.now.nodes) rows.now }
{
    rows.iter()
        .all(|row| is_row::<E>(size, input, feeders, row))
}

fn is_row<E: Entries>(
    size: E::Size,
    input: &Function,
    feeders: &[Option<u16>],
    row: &NodeRow<E::Entry>,
) -> bool
    requires { AreFeeders input.now.entry input.now.nodes feeders.now }
    ensures { IsTrue result ↔ IsRow (E.in_order size) input.now.entry input.now.nodes row.now }
{
    is_marked(input, feeders, row.node)
        && !row.entries.is_empty()
        && E::are_in_order(size, row.entries.as_slice())
}

/// Whether the node is there and marked.
fn is_marked(input: &Function, feeders: &[Option<u16>], node: u16) -> bool
    requires { AreFeeders input.now.entry input.now.nodes feeders.now }
    ensures { IsTrue result ↔ IsMarkedWithin input.now.entry input.now.nodes node }
{
    match feeders.get(usize::from(node)) {
        Some(feeder) => feeder.is_none(),
        None => false,
    }
}

/// Whether each node is above those before it.
fn rise<T>(rows: &[NodeRow<T>]) -> bool
    ensures { IsTrue result ↔ RiseFrom place_of 0 rows.now }
{
    let mut lower = 0;
    for row in rows {
        let node = u32::from(row.node);
        if node < lower {
            return false;
        }
        lower = node + 1;
    }
    true
}
