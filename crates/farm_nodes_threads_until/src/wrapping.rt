//! Nodes in a type of this crate, of which it is said here how it takes turns.

ghost use Rattle.std.specs.Prelude.{◌≡◌, ◌≤◌, [], map, vec_len, vec_capacity, IfSome};
ghost use Rattle.std.specs.List.{AllByRecursion};

use farm_nodes_threads_teams::put;
use farm_nodes_turn_node::Which;
use std::alloc::Global;

/// A node that takes turns in the rooms of the passes up to this one.
#[derive(Drop)]
pub(crate) struct Taking<N> {
    pub node: N,
    pub until: Which,
}

/// Spare memory for so many nodes that take turns, and for as many when they come back.
pub(crate) fn two_spares<N: Drop>(alloc: Global, count: usize) -> Option<(Vec<Taking<N>>, Vec<N>)>
    ensures none { IfSome result (λ r. (r.0.items ≡ []) × (r.1.items ≡ [])) }
    ensures capacity { IfSome result (λ r. (count ≤ vec_capacity r.0) × (count ≤ vec_capacity r.1)) }
{
    let Ok(spare) = Vec::with_capacity(alloc, count) else {
        return None;
    };
    let Ok(home) = Vec::with_capacity(alloc, count) else {
        return None;
    };
    Some((spare, home))
}

/// Each of the nodes as one that takes turns up to this pass, in spare memory.
pub(crate) fn all_taking<N: Drop>(
    nodes: Vec<N>,
    until: Which,
    spare: Vec<Taking<N>>,
) -> Vec<Taking<N>>
    requires none { spare.items ≡ [] }
    requires capacity { vec_len nodes ≤ vec_capacity spare }
    ensures nodes { map (λ t. t.node) result.items ≡ nodes.items }
    ensures until { AllByRecursion (λ t. t.until ≡ until) result.items }
{
    let mut all = spare;
    for node in nodes {
        put(&mut all, Taking { node, until });
    }
    all
}

/// The nodes alone, in spare memory.
pub(crate) fn all_nodes<N: Drop>(all: Vec<Taking<N>>, spare: Vec<N>) -> Vec<N>
    requires none { spare.items ≡ [] }
    requires capacity { vec_len all ≤ vec_capacity spare }
    ensures { result.items ≡ map (λ t. t.node) all.items }
{
    let mut nodes = spare;
    for taking in all {
        put(&mut nodes, taking.node);
    }
    nodes
}
