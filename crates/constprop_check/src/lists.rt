ghost use Rattle.std.specs.Prelude.{◌≡◌};
ghost use Rattle.rtl_passes_facts.specs.Rows.{entries_at};

use constprop_check_rules::Fact;
use lang_base::Row;
use rtl_passes_facts::{NodeRow, entries_of};

/// The certificate: for marked nodes the facts that hold there, by rising nodes. Anybody may propose one, so nothing is
/// promised of it.
pub type FactLists = Row<NodeRow<Fact>>;

/// The facts of a node's row, none where it has no row.
pub fn facts_of(rows: &[NodeRow<Fact>], node: u16) -> &[Fact]
    ensures { result.now ≡ entries_at rows.now node }
{
    entries_of(rows, node)
}
