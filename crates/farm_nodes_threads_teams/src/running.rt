ghost use Rattle.std.specs.Prelude.{◌≡◌, ◌<◌, IfErr};
ghost use Rattle.std.specs.List.{AllByRecursion, AllZip};
ghost use Rattle.farm_nodes_threads_teams.specs.Taken.{HasTaken};
ghost use Rattle.farm_nodes_threads_teams.specs.Back.{nodes_of};

use crate::dealing::{deal, gather, no_teams};
use crate::threads::run;
use farm_nodes_threads_pace::{Pace, TakesTurns};
use lang_base::NoMemory;
use parallel_validate::Gate;
use std::alloc::Global;
use std::sync::Wait;
use std::thread::Threads;

/// Why nodes took no turns, or not all that they could.
#[derive(Clone, Copy, Debug, PartialEq, Eq)]
pub enum RunError {
    /// Memory was refused: nobody took a turn.
    NoMemory,
    /// A thread could not be made. Others may have taken turns.
    NoThread,
}

/// Lets each node take at most so many turns, on so many threads: node i on the thread i modulo their number, and no node more than
/// 64 turns ahead of the slowest that has still to learn. It ends where the turns are used, or all nodes that did not fail have learned
/// in all their rooms. The gate is called before and after each turn with the node's number. All nodes come back, in their order.
pub fn run_threads<N: TakesTurns + Send + Drop, G: Gate + Sync, R: Threads + Wait>(
    rt: &R,
    alloc: Global,
    nodes: Vec<N>,
    turns: u64,
    workers: usize,
    gate: &G,
) -> Result<Vec<N>, (Vec<N>, RunError)>
    requires workers { 0 < workers }
    requires fit { AllByRecursion N.is_fit nodes.items }
    ensures taken { AllZip (HasTaken N.turned N.is_fit turns) nodes.items (nodes_of result).items }
    ensures same { IfErr result (λ told. told.1 ≡ RunError.NoMemory → told.0.items ≡ nodes.items) }
{
    let count = nodes.len();
    let Ok(pace) = Pace::new(alloc, count) else {
        return Err((nodes, RunError::NoMemory));
    };
    let Ok(teams) = no_teams(alloc, teams_for(workers, count)) else {
        return Err((nodes, RunError::NoMemory));
    };
    let (mut nodes, mut teams) = (nodes, teams);
    if !deal(&mut nodes, &mut teams, turns) {
        return Err((gather(nodes, teams, count), RunError::NoMemory));
    }
    match run(rt, alloc, teams, &pace, gate) {
        Ok(teams) => told(gather(nodes, teams, count), pace.is_refused()),
        Err(teams) => Err((gather(nodes, teams, count), RunError::NoMemory)),
    }
}

/// How many teams so many workers are for so many nodes: none is without a node, but where there is none.
fn teams_for(workers: usize, nodes: usize) -> usize
    requires { 0 < workers }
    ensures { 0 < result }
{
    if workers < nodes {
        workers
    } else if nodes == 0 {
        1
    } else {
        nodes
    }
}

/// The nodes that come back, and whether a thread was refused.
fn told<T>(nodes: Vec<T>, is_refused: bool) -> Result<Vec<T>, (Vec<T>, RunError)>
    ensures nodes { nodes_of result ≡ nodes }
    ensures refused { IfErr result (λ told. told.1 ≡ RunError.NoThread) }
{
    if is_refused {
        Err((nodes, RunError::NoThread))
    } else {
        Ok(nodes)
    }
}
