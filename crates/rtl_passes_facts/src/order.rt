//! Whether facts are in order.

ghost use Rattle.std.specs.Prelude.{◌↔◌, All, IsTrue};
ghost use Rattle.rtl_passes_marks.specs.Ranked.{RiseFrom};
ghost use Rattle.rtl_passes_filled.specs.Rules.{IsInOrder};

use crate::rules::Rules;

/// Whether the facts can be those of a row, among so many registers.
pub(crate) fn is_in_order<R: Rules>(registers: u16, facts: &[R::Fact]) -> bool
    ensures { IsTrue result ↔ IsInOrder R.rules registers facts.now }
{
    facts.len() <= usize::from(u16::MAX) && are_fit::<R>(registers, facts) && rise::<R>(facts)
}

/// Whether each fact can be there, among so many registers.
fn are_fit<R: Rules>(registers: u16, facts: &[R::Fact]) -> bool
    ensures { IsTrue result ↔ All (R.rules.Fits registers) facts.now }
{
    facts.iter().all(|fact| R::is_fit(registers, fact))
}

/// Whether each place is above those before it.
fn rise<R: Rules>(facts: &[R::Fact]) -> bool
    ensures { IsTrue result ↔ RiseFrom R.rules.rank 0 facts.now }
{
    let mut lower = 0;
    for fact in facts {
        let place = R::place(fact);
        if place < lower {
            return false;
        }
        lower = place + 1;
    }
    true
}
