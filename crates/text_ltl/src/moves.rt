//! Moves, in brackets.

ghost use Rattle.lang_base.specs.Texts.{Appends};
ghost use Rattle.text_ltl.specs.Shown.{shown_move, shown_between, shown_moves};

use lang_base::NoMemory;
use lang_helpers::{WriteOne, push_each};
use locations::Move;
use text_common::word_of_location;
use text_keys::{Key, push_key, push_word};

/// The words of a move.
struct Step;

impl WriteOne for Step {
    type Item = Move;

    ghost text = { shown_move };

    fn push(out: &mut Vec<u8>, item: &Move) -> Result<(), NoMemory> {
        push_word(out, word_of_location(item.target))?;
        push_key(out, Key::Is)?;
        push_word(out, word_of_location(item.source))
    }
}

/// Writes each move, behind a bracket and before another.
fn push_between(out: &mut Vec<u8>, moves: &[Move]) -> Result<(), NoMemory>
    ensures { Appends result (shown_between moves.now) out.old.items out.new.items }
{
    push_key(out, Key::Opens)?;
    push_each::<Step>(out, moves)?;
    push_key(out, Key::Closes)
}

/// Writes moves in brackets; nothing where there are none.
pub(crate) fn push_moves(out: &mut Vec<u8>, moves: &[Move]) -> Result<(), NoMemory>
    ensures { Appends result (shown_moves moves.now) out.old.items out.new.items }
{
    match moves {
        [] => Ok(()),
        [_first, ..] => push_between(out, moves),
    }
}
