ghost use Rattle.std.specs.Prelude.{◌≡◌};
ghost use Rattle.rtl_passes_facts.specs.Rows.{entries_at};

use cse_check_rules::Equation;
use lang_base::Row;
use rtl_passes_facts::{NodeRow, entries_of};

/// The certificate: for marked nodes the equations that hold there, by rising nodes. Anybody may propose one, so nothing
/// is promised of it.
pub type EquationLists = Row<NodeRow<Equation>>;

/// The equations of a node's row, none where it has no row.
pub fn equations_of(rows: &[NodeRow<Equation>], node: u16) -> &[Equation]
    ensures { result.now ≡ entries_at rows.now node }
{
    entries_of(rows, node)
}
