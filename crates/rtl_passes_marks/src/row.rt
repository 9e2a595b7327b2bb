ghost use Rattle.std.specs.Prelude.{◌≡◌};
ghost use Rattle.rtl_passes_marks.specs.Rows.{entries_at as entries_by};

use lang_base::Row;

/// What is said at a node. Anybody may propose one, so nothing is promised of it.
#[derive(Drop)]
pub struct NodeRow<T> {
    pub node: u16,
    pub entries: Row<T>,
}

/// The entries of a node's row, none where it has no row.
pub fn entries_of<T>(rows: &[NodeRow<T>], node: u16) -> &[T]
    ensures { result.now ≡ entries_by rows.now node }
{
    for row in rows {
        if row.node == node {
            return row.entries.as_slice();
        }
    }
    &[]
}
