//! What is kept of facts: since they are in order, the one of the register that is written is found by halves.

ghost use Rattle.std.specs.Prelude.{◌≡◌};
ghost use Rattle.std.specs.List.{filter};
ghost use Rattle.rtl_passes_facts.specs.Ranked.{RiseFrom};
ghost use Rattle.rtl_passes_facts.specs.Places.{IsFirstFrom};
ghost use Rattle.constprop_check_rules.specs.Rules.{rank};
ghost use Rattle.constprop_check.specs.Behind.{keeps, others};

use crate::behind::Written;
use constprop_check_rules::{Fact, Register};

/// Finds the first fact that speaks of no lower register.
fn first_from(facts: &[Fact], least: Register) -> usize
    requires { RiseFrom rank 0 facts.now }
    ensures { IsFirstFrom rank least facts.now result }
{
    facts.partition_point(|fact| fact.register < least)
}

/// Keeps the facts of registers that are not written.
pub(crate) fn keep(facts: &mut Vec<Fact>, change: Written)
    requires { RiseFrom rank 0 facts.old.items }
    ensures { facts.new.items ≡ filter (keeps change) facts.old.items }
{
    match change.register {
        Some(register) => forget(facts, register),
        None => {}
    }
}

/// Takes the fact of this register away, if there is one.
fn forget(facts: &mut Vec<Fact>, register: Register)
    requires { RiseFrom rank 0 facts.old.items }
    ensures { facts.new.items ≡ others register facts.old.items }
{
    let at = first_from(facts.as_slice(), register);
    if at < facts.len() && facts[at].register == register {
        facts.remove(at);
    }
}
