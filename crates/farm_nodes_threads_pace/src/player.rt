ghost use Rattle.std.specs.Prelude.{◌≡◌, ◌<◌};
ghost use Rattle.farm_nodes_threads_pace.specs.After.{Goes};

use crate::cursor::{Cursor, has_learned_all, next_room};
use crate::pace::Pace;
use crate::patience::Patience;
use crate::turns::{Outcome, TakesTurns};
use parallel_validate::Gate;

/// A node that takes turns, and how many it may still take.
#[derive(Drop)]
pub struct Player<N: TakesTurns> {
    pub node: N,
    number: usize,
    pub left: u64,
    taken: u64,
    cursor: Cursor,
    patience: Patience,
    is_running: bool,
}

/// What came of asking for a turn.
#[derive(Clone, Copy)]
pub(crate) enum Step {
    /// It takes no more.
    Ended,
    /// It took none now.
    Waited,
    /// It took one, which brought nothing new.
    Idle,
    Moved,
}

impl<N: TakesTurns> Player<N> {
    /// The node of this number, which may take so many turns.
    pub fn new(node: N, number: usize, left: u64) -> Player<N>
        ensures node { result.node ≡ node }
        ensures left { result.left ≡ left }
    {
        Player {
            node,
            number,
            left,
            taken: 0,
            cursor: Cursor::new(number),
            patience: Patience::none(),
            is_running: true,
        }
    }

    /// The node alone.
    pub fn into_node(self) -> N
        ensures { result ≡ self.node }
    {
        let Player {
            node,
            number: _,
            left: _,
            taken: _,
            cursor: _cursor,
            patience: _patience,
            is_running: _,
        } = self;
        node
    }
}

impl Step {
    /// What a turn brought.
    fn of(outcome: Outcome) -> Step {
        match outcome {
            Outcome::Moved => Step::Moved,
            Outcome::Idle => Step::Idle,
            Outcome::Failed => Step::Ended,
        }
    }
}

/// The player takes no more turns.
fn end<N: TakesTurns>(player: &mut Player<N>, pace: &Pace, is_content: bool)
    ensures node { player.new.node ≡ player.old.node }
    ensures left { player.new.left ≡ player.old.left }
{
    pace.end(player.number, is_content);
    player.is_running = false;
}

/// The turn itself, between the calls of the gate, and how far the player is behind it.
#[tactic(auto, using(crate::proofs::Going::goes_once))]
fn turn<N: TakesTurns, G: Gate>(player: &mut Player<N>, room: u16, pace: &Pace, gate: &G) -> Outcome
    requires fit { N.is_fit player.old.node }
    requires room { N.has_room player.old.node room }
    requires some { 0 < player.old.left }
    ensures { Goes N.turned N.is_fit player.old.node player.old.left player.new.node player.new.left }
{
    gate.before(player.number);
    pace.begin_turn();
    let outcome = player.node.take_turn(room);
    pace.end_turn(outcome.is_new());
    player.left -= 1;
    player.taken = player.taken.saturating_add(1);
    gate.after(player.number);
    let has_learned = player.node.has_learned(room);
    player.cursor.note(has_learned);
    if outcome.is_new() {
        player.cursor.note_move();
    }
    if outcome.has_failed() {
        end(player, pace, true);
    } else {
        pace.note(player.number, player.taken, player.cursor.has_all);
    }
    outcome
}

/// A turn in the next room, where the player has turns left and is not too far ahead.
#[tactic(auto, using(crate::proofs::Going::goes_nowhere))]
pub(crate) fn take_turn<N: TakesTurns, G: Gate>(
    player: &mut Player<N>,
    pace: &Pace,
    gate: &G,
) -> Step
    requires fit { N.is_fit player.old.node }
    ensures { Goes N.turned N.is_fit player.old.node player.old.left player.new.node player.new.left }
{
    if !player.is_running || pace.is_over() {
        return Step::Ended;
    }
    if player.left == 0 || player.node.rooms() == 0 {
        let has_all = has_learned_all(&player.node);
        end(player, pace, has_all);
        return Step::Ended;
    }
    if pace.is_ahead(player.taken, player.cursor.most_ahead()) || player.patience.waits(pace) {
        return Step::Waited;
    }
    let Some(room) = next_room(&player.node, &mut player.cursor) else {
        pace.note(player.number, player.taken, player.cursor.has_all);
        player.patience.begin(pace);
        return Step::Waited;
    };
    Step::of(turn(player, room, pace, gate))
}
