//! What is known behind an instruction, made in place of what is known before it.

ghost use Rattle.std.specs.Prelude.{◌≡◌, OnOk};
ghost use Rattle.rtl_passes_marks.specs.Ranked.{RiseFrom};
ghost use Rattle.rtl_passes_filled.specs.Filled.{behind, put_in as put_among};
ghost use Rattle.rtl_passes_filled.specs.Places.{IsFirstFrom};

use crate::rules::Rules;
use lang_base::NoMemory;
use rtl_passes_marks::Instruction;

/// Finds the first fact that has no lower place than this, by halves.
fn first_from<R: Rules>(facts: &[R::Fact], least: u64) -> usize
    requires { RiseFrom R.rules.rank 0 facts.now }
    ensures { IsFirstFrom R.rules.rank least facts.now result }
{
    facts.partition_point(|fact| R::place(fact) < least)
}

/// Puts the fact at its place, for the one that stands there if any does.
fn put_in<R: Rules>(facts: &mut Vec<R::Fact>, fact: R::Fact) -> Result<(), NoMemory>
    requires { RiseFrom R.rules.rank 0 facts.old.items }
    ensures { OnOk result (facts.new.items ≡ put_among R.rules.rank fact facts.old.items) }
{
    let place = R::place(&fact);
    let at = first_from::<R>(facts.as_slice(), place);
    if at < facts.len() && R::place(&facts[at]) == place {
        facts[at] = fact;
    } else {
        facts.insert(at, fact)?;
    }
    Ok(())
}

/// Makes what is known before the instruction what is known behind it.
pub(crate) fn carry<R: Rules>(
    facts: &mut Vec<R::Fact>,
    instruction: &Instruction,
) -> Result<(), NoMemory>
    requires { RiseFrom R.rules.rank 0 facts.old.items }
    ensures { OnOk result (facts.new.items ≡ behind R.rules instruction.now facts.old.items) }
{
    let change = R::change_by(instruction, facts.as_slice());
    R::keep(facts, change);
    if let Some(fact) = R::made(change) {
        put_in::<R>(facts, fact)?;
    }
    Ok(())
}
