//! Nodes are dealt round to workers, and come back in their order.

ghost use Rattle.std.specs.Prelude.{◌≡◌, ◌<◌, ◌≤◌, ◌+◌, [], ◌∷◌, ◌++◌, None, length, map, replicate, slice_index_or, vec_items, vec_capacity, vec_len, IfOk, OnOk, IfErr, OnErr, IfSome};
ghost use Rattle.farm_nodes_threads_teams.specs.Dealt.{add_at};
ghost use Rattle.farm_nodes_threads_teams.specs.Teams.{DealsTurns, GathersSame, GathersTaken};

use farm_nodes_threads_pace::{Player, TakesTurns};
use lang_base::NoMemory;
use std::alloc::Global;

/// So many teams of nobody.
pub(crate) fn no_teams<T: Drop>(alloc: Global, workers: usize) -> Result<Vec<Vec<T>>, NoMemory>
    ensures { IfOk result (λ teams. map vec_items teams.items ≡ replicate workers []) }
{
    let mut teams = Vec::with_capacity(alloc, workers)?;
    for _ in 0..workers {
        teams.push(Vec::new(alloc))?;
    }
    Ok(teams)
}

/// Puts one more behind these, which have capacity for it: no memory is asked for.
pub fn put<T: Drop>(all: &mut Vec<T>, one: T)
    requires { vec_len all.old < vec_capacity all.old }
    ensures items { all.new.items ≡ all.old.items ++ one ∷ [] }
    ensures len { vec_len all.new ≡ vec_len all.old + 1 }
    ensures capacity { vec_capacity all.old ≤ vec_capacity all.new }
{
    if all.push(one).is_err() {
        unreachable!();
    }
}

/// Puts a member behind the team at this place.
fn add<T>(teams: &mut [Vec<T>], place: usize, member: T) -> Result<(), T>
    requires { place < length teams.old }
    ensures ok { OnOk result (map vec_items teams.new ≡ add_at place member (map vec_items teams.old)) }
    ensures back { IfErr result (λ back. back ≡ member) }
    ensures same { OnErr result (map vec_items teams.new ≡ map vec_items teams.old) }
{
    match teams[place].push(member) {
        Ok(()) => Ok(()),
        Err(refused) => Err(refused.value),
    }
}

/// Takes the last member of the team at this place.
fn take<T>(teams: &mut [Vec<T>], place: usize) -> Option<T>
    requires { place < length teams.old }
    ensures some { IfSome result (λ member.
        map vec_items teams.old ≡ add_at place member (map vec_items teams.new)) }
    ensures none { result ≡ None → slice_index_or (map vec_items teams.old) place [] ≡ [] }
{
    teams[place].pop()
}

/// Deals the last of the nodes, with so many turns. Where memory is refused it answers false, and the node stays here.
fn deal_last<N: TakesTurns + Drop>(
    nodes: &mut Vec<N>,
    teams: &mut [Vec<Player<N>>],
    turns: u64,
) -> bool
    requires some { 0 < length teams.old }
    ensures dealt { DealsTurns turns nodes.old.items teams.old nodes.new.items teams.new }
    ensures teams { length teams.new ≡ length teams.old }
    ensures capacity { vec_capacity nodes.old ≤ vec_capacity nodes.new }
    ensures fewer { vec_len nodes.new ≤ vec_len nodes.old }
{
    let Some(node) = nodes.pop() else {
        return true;
    };
    let number = nodes.len();
    match add(
        teams,
        number % teams.len(),
        Player::new(node, number, turns),
    ) {
        Ok(()) => true,
        Err(player) => {
            put(nodes, player.into_node());
            false
        }
    }
}

/// Deals the nodes, each with so many turns, from the last on. Where memory is refused it answers false, and the others stay here.
pub(crate) fn deal<N: TakesTurns + Drop>(
    nodes: &mut Vec<N>,
    teams: &mut [Vec<Player<N>>],
    turns: u64,
) -> bool
    requires some { 0 < length teams.old }
    ensures dealt { DealsTurns turns nodes.old.items teams.old nodes.new.items teams.new }
    ensures capacity { vec_capacity nodes.old ≤ vec_capacity nodes.new }
    ensures fewer { vec_len nodes.new ≤ vec_len nodes.old }
{
    let mut is_dealt = true;
    for _ in 0..nodes.len() {
        if !is_dealt {
            break;
        }
        is_dealt = deal_last(nodes, teams, turns);
    }
    is_dealt
}

/// Takes so many nodes back, in their order.
pub(crate) fn gather<N: TakesTurns + Drop>(
    nodes: Vec<N>,
    teams: Vec<Vec<Player<N>>>,
    count: usize,
) -> Vec<N>
    requires some { 0 < vec_len teams }
    requires capacity { count ≤ vec_capacity nodes }
    requires fewer { vec_len nodes ≤ count }
    ensures same { GathersSame count teams nodes.items result.items }
    ensures taken { GathersTaken N.turned N.is_fit count teams nodes.items result.items }
{
    let (mut nodes, mut teams) = (nodes, teams);
    for number in nodes.len()..count {
        let place = number % teams.len();
        let Some(player) = take(&mut teams, place) else {
            return nodes;
        };
        put(&mut nodes, player.into_node());
    }
    nodes
}
