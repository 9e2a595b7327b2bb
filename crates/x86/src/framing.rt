//! The stack's room, and cells taken off it.

ghost use Rattle.std.specs.Prelude.{◌≡◌};
ghost use Rattle.x86_state.specs.State.{does};
ghost use Rattle.x86.specs.Framing.{has_room, goes_if_room, shrunk_by};
ghost use Rattle.x86.specs.Runs.{Steps, HasNext};

use crate::moving::go_on;
use crate::outcome::Outcome;
use crate::running::Running;

/// Whether so many cells have room.
fn is_room_for(room: Option<usize>, count: usize) -> bool
    ensures { result ≡ has_room room count }
{
    match room {
        None => true,
        Some(bound) => count <= bound,
    }
}

pub(crate) fn go_if_room(run: &mut Running, room: Option<usize>) -> Outcome
    requires { HasNext run.old }
    ensures { Steps (goes_if_room room) run.old result run.new }
{
    if !is_room_for(room, run.stack.len()) {
        return Outcome::Fills;
    }
    run.flags = None;
    go_on(run)
}

pub(crate) fn shrink(run: &mut Running, count: u16) -> Outcome
    requires { HasNext run.old }
    ensures { Steps (λ s. does (shrunk_by count s)) run.old result run.new }
{
    if run.stack.shrink(count) {
        run.flags = None;
        go_on(run)
    } else {
        Outcome::Stuck
    }
}
