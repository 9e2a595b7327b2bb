//! Whether facts are among others, or known behind them: both lists are in order, so one walk along both tells.

ghost use Rattle.std.specs.Prelude.{◌≡◌, ◌↔◌, ◌≤◌, Some, All, IsTrue, Contains};
ghost use Rattle.rtl_passes_marks.specs.Ranked.{RiseFrom};
ghost use Rattle.rtl_passes_filled.specs.Known.{IsMadeOrKept};

use crate::rules::Rules;
use rtl_passes_marks::Instruction;

/// The facts from this place on.
fn from_place<R: Rules>(facts: &[R::Fact], least: u64) -> &[R::Fact]
    requires { RiseFrom R.rules.rank 0 facts.now }
    ensures rising { RiseFrom R.rules.rank least result.now }
    ensures same { (e : R.Fact) → least ≤ R.rules.rank e → Contains result.now e ↔ Contains facts.now e }
{
    let mut left = facts;
    while let [first, rest @ ..] = left {
        if R::place(first) >= least {
            break;
        }
        left = rest;
    }
    left
}

/// Whether the fact is among these, of which none has a lower place.
fn begin_with<R: Rules>(facts: &[R::Fact], fact: &R::Fact) -> bool
    requires { RiseFrom R.rules.rank (R.rules.rank fact.now) facts.now }
    ensures { IsTrue result ↔ Contains facts.now fact.now }
{
    match facts {
        [first, _rest @ ..] => R::is_one(first, fact),
        [] => false,
    }
}

/// Whether the fact is the one that the change makes, if it makes one.
fn is_made<R: Rules>(change: R::Change, fact: &R::Fact) -> bool
    ensures { IsTrue result ↔ (R.makes change ≡ Some fact.now) }
{
    match R::made(change) {
        Some(own) => R::is_one(&own, fact),
        None => false,
    }
}

/// Whether the fact is known behind the change, where none of those before has a lower place.
fn is_known<R: Rules>(change: R::Change, before: &[R::Fact], fact: &R::Fact) -> bool
    requires { RiseFrom R.rules.rank (R.rules.rank fact.now) before.now }
    ensures { IsTrue result ↔ IsMadeOrKept (R.makes change) (R.keeps change) before.now fact.now }
{
    is_made::<R>(change, fact) || (begin_with::<R>(before, fact) && R::is_kept(change, fact))
}

/// What is left of both lists behind the facts that stand first in both and are kept, which mostly all are.
fn behind_front<'a, R: Rules>(
    change: R::Change,
    before: &'a [R::Fact],
    after: &'a [R::Fact],
) -> (&'a [R::Fact], &'a [R::Fact])
    requires before { RiseFrom R.rules.rank 0 before.now }
    requires after { RiseFrom R.rules.rank 0 after.now }
    ensures before { RiseFrom R.rules.rank 0 result.0.now }
    ensures after { RiseFrom R.rules.rank 0 result.1.now }
    ensures same { All (IsMadeOrKept (R.makes change) (R.keeps change) before.now) after.now
        ↔ All (IsMadeOrKept (R.makes change) (R.keeps change) result.0.now) result.1.now }
{
    let mut left = before;
    let mut rest = after;
    while let ([first, others @ ..], [fact, more @ ..]) = (left, rest) {
        if !R::is_one(first, fact) || !R::is_kept(change, fact) {
            break;
        }
        left = others;
        rest = more;
    }
    (left, rest)
}

/// Whether each fact is made by the change, or known before and kept.
#[inline(never)]
fn are_looked_for<R: Rules>(change: R::Change, before: &[R::Fact], after: &[R::Fact]) -> bool
    requires before { RiseFrom R.rules.rank 0 before.now }
    requires after { RiseFrom R.rules.rank 0 after.now }
    ensures { IsTrue result ↔ All (IsMadeOrKept (R.makes change) (R.keeps change) before.now) after.now }
{
    let mut left = before;
    for fact in after {
        left = from_place::<R>(left, R::place(fact));
        if !is_known::<R>(change, left, fact) {
            return false;
        }
    }
    true
}

/// The same; those that stand first in both lists and are kept are not looked for.
fn are_made_or_kept<R: Rules>(change: R::Change, before: &[R::Fact], after: &[R::Fact]) -> bool
    requires before { RiseFrom R.rules.rank 0 before.now }
    requires after { RiseFrom R.rules.rank 0 after.now }
    ensures { IsTrue result ↔ All (IsMadeOrKept (R.makes change) (R.keeps change) before.now) after.now }
{
    let (left, rest) = behind_front::<R>(change, before, after);
    rest.is_empty() || are_looked_for::<R>(change, left, rest)
}

/// Whether each fact is known behind the instruction and those before it.
pub(crate) fn are_known<R: Rules>(
    instruction: &Instruction,
    before: &[R::Fact],
    after: &[R::Fact],
) -> bool
    requires before { RiseFrom R.rules.rank 0 before.now }
    requires after { RiseFrom R.rules.rank 0 after.now }
    ensures { IsTrue result ↔ All (R.rules.IsKnown instruction.now before.now) after.now }
{
    let change = R::change_by(instruction, before);
    are_made_or_kept::<R>(change, before, after)
}
