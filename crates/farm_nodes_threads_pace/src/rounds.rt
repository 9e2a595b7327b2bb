//! What one thread does.

ghost use Rattle.std.specs.List.{AllByRecursion, AllZip};
ghost use Rattle.farm_nodes_threads_pace.specs.After.{Goes};

use crate::pace::Pace;
use crate::player::{Player, Step, take_turn};
use crate::turns::TakesTurns;
use parallel_validate::Gate;
use std::thread;

/// What a round over a thread's players brought: whether one of them may still take a turn, and whether one took one that brought
/// something new.
#[derive(Clone, Copy)]
struct Round {
    runs: bool,
    moved: bool,
}

impl Round {
    /// With what came of asking one player more.
    fn with(self, step: Step) -> Round {
        match step {
            Step::Ended => self,
            Step::Waited | Step::Idle => Round {
                runs: true,
                moved: self.moved,
            },
            Step::Moved => Round {
                runs: true,
                moved: true,
            },
        }
    }
}

/// Asks each player once for a turn. Answers whether one of them may still take any.
fn go_round<N: TakesTurns, G: Gate>(players: &mut [Player<N>], pace: &Pace, gate: &G) -> bool
    requires fit { AllByRecursion (λ p. N.is_fit p.node) players.old }
    ensures { AllZip (λ p q. Goes N.turned N.is_fit p.node p.left q.node q.left) players.old players.new }
{
    let mut round = Round {
        runs: false,
        moved: false,
    };
    for place in 0..players.len() {
        let step = take_turn(&mut players[place], pace, gate);
        round = round.with(step);
    }
    if !round.moved {
        thread::yield_now();
    }
    round.runs
}

/// Goes round among the players until none takes turns any more.
pub fn take_turns<N: TakesTurns, G: Gate>(players: &mut [Player<N>], pace: &Pace, gate: &G)
    requires fit { AllByRecursion (λ p. N.is_fit p.node) players.old }
    ensures { AllZip (λ p q. Goes N.turned N.is_fit p.node p.left q.node q.left) players.old players.new }
{
    let mut runs = true;
    for _ in 0..u64::MAX {
        if !runs {
            break;
        }
        runs = go_round(players, pace, gate);
    }
}
