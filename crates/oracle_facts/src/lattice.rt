//! What is known at a node, as facts in order of their places.

use crate::follows::{FactOf, Follows};
use lang_base::NoMemory;
use rtl_language::Instruction;
use rtl_passes_facts::Rules;
use std::alloc::Global;

/// At most so many facts are kept at a node, so that the work is linear in the nodes.
const LIMIT: usize = 32;

/// The facts from this place on.
fn from_place<R: Rules>(facts: &[R::Fact], least: u64) -> &[R::Fact] {
    for (i, fact) in facts.iter().enumerate() {
        if R::place(fact) >= least {
            return &facts[i..];
        }
    }
    &[]
}

fn begins_with<R: Rules>(facts: &[R::Fact], fact: &R::Fact) -> bool {
    match facts {
        [first, _rest @ ..] => R::is_one(first, fact),
        [] => false,
    }
}

/// The facts that stand in both lists.
pub(crate) fn meet<R: Rules>(
    alloc: Global,
    some: &[R::Fact],
    others: &[R::Fact],
) -> Result<Vec<R::Fact>, NoMemory> {
    let mut both = Vec::new(alloc);
    let mut left = others;
    for fact in some {
        left = from_place::<R>(left, R::place(fact));
        if begins_with::<R>(left, fact) {
            both.push(*fact)?;
        }
    }
    Ok(both)
}

/// The facts that hold on behind the instruction.
pub(crate) fn surviving<F: Follows>(
    alloc: Global,
    facts: &[FactOf<F>],
    instruction: &Instruction,
) -> Result<Vec<FactOf<F>>, NoMemory> {
    let mut kept = Vec::new(alloc);
    for fact in facts {
        if F::is_kept(instruction, fact) {
            kept.push(*fact)?;
        }
    }
    Ok(kept)
}

/// The facts behind the instruction.
pub(crate) fn behind<F: Follows>(
    alloc: Global,
    follows: &F,
    facts: &[FactOf<F>],
    instruction: &Instruction,
) -> Result<Vec<FactOf<F>>, NoMemory> {
    let kept = surviving::<F>(alloc, facts, instruction)?;
    match follows.made(instruction, facts) {
        Some(new) => with_fact::<F::Of>(alloc, &kept, new),
        None => Ok(kept),
    }
}

/// The facts with another, of a place where none stands; where they are too many, without one of them.
fn with_fact<R: Rules>(
    alloc: Global,
    facts: &[R::Fact],
    new: R::Fact,
) -> Result<Vec<R::Fact>, NoMemory> {
    let facts = shortened(facts);
    let mut all = Vec::new(alloc);
    let mut pending = Some(new);
    for fact in facts {
        if R::place(&new) < R::place(fact)
            && let Some(new) = pending.take()
        {
            all.push(new)?;
        }
        all.push(*fact)?;
    }
    if let Some(new) = pending {
        all.push(new)?;
    }
    Ok(all)
}

/// The facts but the last, where no more fit.
fn shortened<T>(facts: &[T]) -> &[T] {
    if facts.len() < LIMIT {
        facts
    } else {
        &facts[..LIMIT - 1]
    }
}
