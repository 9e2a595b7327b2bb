//! The words of arguments.

ghost use Rattle.std.specs.Prelude.{◌≡◌, ◌++◌, IfOk, OnOk, map, replicate};
ghost use Rattle.c_faults_run.specs.Calls.{AreWorth};

use c_faults::Gap;
use c_faults_gaps::{behind, worth};
use c_meaning_machine::Scope;
use c_program::Term;
use lang_base::NoMemory;

/// The words of arguments, or the first part of them that has no value.
#[tactic(auto, using(c_meaning_machine::proofs::Placing::joined_none, c_meaning_machine::proofs::Placing::joined_more, c_faults_step::proofs::Listed::gap_here, c_faults_step::proofs::Listed::gap_later))]
pub fn argument_words(
    arguments: &[Term],
    places: &[usize],
    scope: &Scope,
    words: &mut Vec<u32>,
) -> Result<Option<Gap>, NoMemory>
    ensures { IfOk result (AreWorth places.now arguments.now scope.now words.new.items) }
{
    words.truncate(0);
    let mut rest = places;
    for argument in arguments {
        match worth(argument, rest, scope) {
            Err(found) => return Ok(Some(found)),
            Ok(word) => words.push(word)?,
        }
        rest = behind(argument, rest);
    }
    Ok(None)
}

/// Words are put behind the locals.
#[tactic(auto, using(std::proofs::lemmas::List::map_push))]
pub fn push_words(locals: &mut Vec<Option<u32>>, words: &[u32]) -> Result<(), NoMemory>
    ensures { OnOk result (locals.new.items ≡ locals.old.items ++ map Some words.now) }
{
    for word in words {
        locals.push(Some(*word))?;
    }
    Ok(())
}

/// So many indeterminate locals are put behind the others.
pub fn push_blank(locals: &mut Vec<Option<u32>>, count: usize) -> Result<(), NoMemory>
    ensures { OnOk result (locals.new.items ≡ locals.old.items ++ replicate count None) }
{
    locals.reserve(count)?;
    for _ in 0..count {
        locals.push_reserved(None);
    }
    Ok(())
}
