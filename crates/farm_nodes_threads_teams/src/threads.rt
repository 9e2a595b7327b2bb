//! Each team on a thread of its own.

ghost use Rattle.std.specs.Prelude.{◌≡◌, ◌≤◌, ◌+◌, [], true, vec_len, vec_capacity, IfOk, IfErr};
ghost use Rattle.std.specs.List.{AllByRecursion};
ghost use Rattle.farm_nodes_threads_teams.specs.Begun.{with_begun};
ghost use Rattle.farm_nodes_threads_teams.specs.Teams.{TeamGoesOn, TeamsGoBegun, TeamsGoOn};

use crate::dealing::put;
use farm_nodes_threads_pace::{Pace, Player, TakesTurns, take_turns};
use parallel_validate::Gate;
use std::alloc::Global;
use std::snapshot::Snapshot;
use std::sync::Wait;
use std::thread;
use std::thread::{Promise, PromisedHandle, Scope, Threads};

/// Promises that a team comes back with its players in their order, each as turns of its own left it.
#[derive(Drop)]
struct Returns<N: TakesTurns + Drop>(Snapshot<Vec<Player<N>>>);

impl<N: TakesTurns + Drop> Promise<Vec<Player<N>>> for Returns<N> {
    ghost use Rattle.farm_nodes_threads_teams.specs.Teams.{TeamGoesOn};

    ghost kept_by = { λ promise team. TeamGoesOn N.turned N.is_fit promise.0.value team };
}

/// What a team does on its thread.
fn work<N: TakesTurns, G: Gate>(team: Vec<Player<N>>, pace: &Pace, gate: &G) -> Vec<Player<N>>
    requires fit { AllByRecursion (λ p. N.is_fit p.node) team.items }
    ensures { TeamGoesOn N.turned N.is_fit team result }
{
    let mut team = team;
    take_turns(&mut team, pace, gate);
    team
}

/// The threads on which teams have begun, the last team first.
type Children<N> = Vec<PromisedHandle<Vec<Player<N>>, Returns<N>>>;

/// Begins the last team on a thread. Where no thread can be made, nobody begins another turn, the team comes back, and the answer is
/// false.
fn start_last<'s, E, N: TakesTurns + Send + Drop + 's, G: Gate + Sync>(
    scope: &Scope<'s, E>,
    teams: &mut Vec<Vec<Player<N>>>,
    children: &mut Children<N>,
    pace: &'s Pace,
    gate: &'s G,
) -> bool
    requires fit { AllByRecursion (λ v. AllByRecursion (λ p. N.is_fit p.node) v.items) teams.old.items }
    requires capacity { vec_len teams.old + vec_len children.old ≤ vec_capacity children.old }
    ensures fit { result ≡ true →
        AllByRecursion (λ v. AllByRecursion (λ p. N.is_fit p.node) v.items) teams.new.items }
    ensures go { TeamsGoBegun N.turned N.is_fit (λ h. h.promise.0.value) teams.old children.old teams.new children.new }
    ensures count { vec_len teams.new + vec_len children.new ≡ vec_len teams.old + vec_len children.old }
    ensures teams { vec_capacity teams.old ≤ vec_capacity teams.new }
    ensures children { vec_capacity children.old ≤ vec_capacity children.new }
{
    let Some(team) = teams.pop() else {
        return true;
    };
    let promise = Returns(Snapshot::of(&team));
    let started = scope.spawn_with(
        promise,
        move || -> Vec<Player<N>>
            requires { AllByRecursion (λ p. N.is_fit p.node) team.items }
            ensures { TeamGoesOn N.turned N.is_fit team result }
        { work(team, pace, gate) },
    );
    match started {
        Ok(child) => {
            put(children, child);
            true
        }
        Err(refused) => {
            pace.refuse();
            let team = (refused.value)();
            put(teams, team);
            false
        }
    }
}

/// Begins the teams, the last first, each on a thread, as far as threads can be made.
fn start_all<'s, E, N: TakesTurns + Send + Drop + 's, G: Gate + Sync>(
    scope: &Scope<'s, E>,
    teams: &mut Vec<Vec<Player<N>>>,
    children: &mut Children<N>,
    pace: &'s Pace,
    gate: &'s G,
)
    requires fit { AllByRecursion (λ v. AllByRecursion (λ p. N.is_fit p.node) v.items) teams.old.items }
    requires capacity { vec_len teams.old + vec_len children.old ≤ vec_capacity children.old }
    ensures go { TeamsGoBegun N.turned N.is_fit (λ h. h.promise.0.value) teams.old children.old teams.new children.new }
    ensures count { vec_len teams.new + vec_len children.new ≡ vec_len teams.old + vec_len children.old }
    ensures teams { vec_capacity teams.old ≤ vec_capacity teams.new }
{
    let mut goes_on = true;
    for _ in 0..teams.len() {
        if !goes_on {
            break;
        }
        goes_on = start_last(scope, teams, children, pace, gate);
    }
}

/// Waits for each team that has begun, and puts it behind those that are here.
fn join_all<N: TakesTurns + Drop, R: Threads>(
    rt: &R,
    teams: Vec<Vec<Player<N>>>,
    children: Children<N>,
) -> Vec<Vec<Player<N>>>
    requires capacity { vec_len teams + vec_len children ≤ vec_capacity teams }
    ensures { TeamsGoOn N.turned N.is_fit (with_begun (λ h. h.promise.0.value) teams.items children.items) result.items }
{
    let (mut teams, mut children) = (teams, children);
    for _ in 0..children.len() {
        let Some(child) = children.pop() else {
            break;
        };
        let team = child.join(rt);
        put(&mut teams, team);
    }
    teams
}

/// What is done in the scope of the threads, with capacity for as many children as there are teams.
fn run_in<'s, E, N: TakesTurns + Send + Drop + 's, G: Gate + Sync, R: Threads>(
    rt: &R,
    scope: &Scope<'s, E>,
    teams: Vec<Vec<Player<N>>>,
    children: Children<N>,
    pace: &'s Pace,
    gate: &'s G,
) -> Vec<Vec<Player<N>>>
    requires fit { AllByRecursion (λ v. AllByRecursion (λ p. N.is_fit p.node) v.items) teams.items }
    requires none { children.items ≡ [] }
    requires capacity { vec_len teams ≤ vec_capacity children }
    ensures { TeamsGoOn N.turned N.is_fit teams.items result.items }
{
    let (mut teams, mut children) = (teams, children);
    start_all(scope, &mut teams, &mut children, pace, gate);
    join_all(rt, teams, children)
}

/// Lets each team work on a thread of its own, and waits for them all. Where memory is refused, nobody has begun.
pub(crate) fn run<N: TakesTurns + Send + Drop, G: Gate + Sync, R: Threads + Wait>(
    rt: &R,
    alloc: Global,
    teams: Vec<Vec<Player<N>>>,
    pace: &Pace,
    gate: &G,
) -> Result<Vec<Vec<Player<N>>>, Vec<Vec<Player<N>>>>
    requires fit { AllByRecursion (λ v. AllByRecursion (λ p. N.is_fit p.node) v.items) teams.items }
    ensures ok { IfOk result (λ after. TeamsGoOn N.turned N.is_fit teams.items after.items) }
    ensures err { IfErr result (λ back. back ≡ teams) }
{
    let Ok(children) = Vec::with_capacity(alloc, teams.len()) else {
        return Err(teams);
    };
    Ok(thread::scope(
        thread::scope_env(),
        rt,
        move |scope| -> Vec<Vec<Player<N>>>
            requires fit { AllByRecursion (λ v. AllByRecursion (λ p. N.is_fit p.node) v.items) teams.items }
            requires none { children.items ≡ [] }
            requires capacity { vec_len teams ≤ vec_capacity children }
            ensures { TeamsGoOn N.turned N.is_fit teams.items result.items }
        { run_in(rt, scope, teams, children, pace, gate) },
    ))
}
