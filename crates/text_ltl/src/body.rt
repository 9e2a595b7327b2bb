//! What a block does behind its first moves.

ghost use Rattle.lang_base.specs.Texts.{Appends};
ghost use Rattle.ltl.specs.Function.{after_of};
ghost use Rattle.text_keys.specs.Lines.{spaced};
ghost use Rattle.text_ltl.specs.Shown.{body_left, body_right, behind, call_words, maybe_left, maybe_right, shown_moves, shown_body};

use crate::moves::push_moves;
use lang_base::NoMemory;
use locations::Location;
use ltl::Body;
use machine::Act;
use text_common::{Located, push_act_left, push_act_right, push_target, push_test, push_value};
use text_keys::{Key, Letter, Word, end_line, push_count, push_each_word, push_key, push_word};

fn push_maybe_left(out: &mut Vec<u8>, act: &Option<Act>) -> Result<(), NoMemory>
    ensures { Appends result (spaced (maybe_left act.now)) out.old.items out.new.items }
{
    match act {
        None => Ok(()),
        Some(act) => push_act_left(out, act),
    }
}

fn push_maybe_right(out: &mut Vec<u8>, act: &Option<Act>) -> Result<(), NoMemory>
    ensures { Appends result (spaced (maybe_right act.now)) out.old.items out.new.items }
{
    match act {
        None => push_key(out, Key::Nothing),
        Some(act) => push_act_right(out, act),
    }
}

/// Where what a body gives goes, before what it does.
fn push_left(out: &mut Vec<u8>, body: &Body) -> Result<(), NoMemory>
    ensures { Appends result (spaced (body_left body.now)) out.old.items out.new.items }
{
    match body {
        Body::Go { act, .. } => push_maybe_left(out, act),
        Body::Call { target, .. } => push_target(out, *target),
        Body::Branch { .. } => Ok(()),
        Body::Return { .. } => Ok(()),
    }
}

/// A call: the function's number, and where the arguments lie.
fn push_call(out: &mut Vec<u8>, function: u8, arguments: &[Location]) -> Result<(), NoMemory>
    ensures { Appends result (spaced (call_words function arguments.now)) out.old.items out.new.items }
{
    push_key(out, Key::Call)?;
    push_word(out, Word::Lettered(Letter::Function, u64::from(function)))?;
    push_each_word::<Located>(out, arguments)
}

/// What a body does.
fn push_right(out: &mut Vec<u8>, body: &Body) -> Result<(), NoMemory>
    ensures { Appends result (spaced (body_right body.now)) out.old.items out.new.items }
{
    match body {
        Body::Go { act, .. } => push_maybe_right(out, act),
        Body::Call {
            function,
            arguments,
            ..
        } => push_call(out, *function, arguments.as_slice()),
        Body::Branch { test, .. } => {
            push_key(out, Key::If)?;
            push_test(out, test)
        }
        Body::Return { value } => {
            push_key(out, Key::Return)?;
            push_value(out, *value)
        }
    }
}

/// The moves behind what a body does.
fn push_after(out: &mut Vec<u8>, body: &Body) -> Result<(), NoMemory>
    ensures { Appends result (shown_moves (after_of body.now)) out.old.items out.new.items }
{
    match body {
        Body::Go { after, .. } => push_moves(out, after.as_slice()),
        Body::Call { after, .. } => push_moves(out, after.as_slice()),
        Body::Branch { .. } => Ok(()),
        Body::Return { .. } => Ok(()),
    }
}

/// Where a body goes on.
fn push_onward(out: &mut Vec<u8>, body: &Body) -> Result<(), NoMemory>
    ensures { Appends result (spaced (behind body.now)) out.old.items out.new.items }
{
    match body {
        Body::Go { successor, .. } => push_count(out, Key::Then, *successor),
        Body::Call { successor, .. } => push_count(out, Key::Then, *successor),
        Body::Branch { taken, other, .. } => {
            push_key(out, Key::Then)?;
            push_word(out, Word::Number(u64::from(*taken)))?;
            push_word(out, Word::Number(u64::from(*other)))
        }
        Body::Return { .. } => Ok(()),
    }
}

/// What a body does, its last moves, where it goes on, and the end of the line.
pub(crate) fn push_body(out: &mut Vec<u8>, body: &Body) -> Result<(), NoMemory>
    ensures { Appends result (shown_body body.now) out.old.items out.new.items }
{
    push_left(out, body)?;
    push_right(out, body)?;
    push_after(out, body)?;
    push_onward(out, body)?;
    end_line(out)
}
