//! Whether a node keeps the rules, one after the other: what is known at a node is handed on to those that it feeds.
//! The rows are borrowed; of those alone that are handed on a copy is made.

ghost use Rattle.std.specs.Prelude.{◌≡◌, ◌↔◌, ◌<◌, [], length, All, IsTrue, IfOk, OnOk};
ghost use Rattle.rtl_passes_marks.specs.Faults.{TellsLowest};
ghost use Rattle.rtl_passes_marks.specs.Shape.{HasSameShape};
ghost use Rattle.rtl_passes_marks.specs.Handing.{IsMarkedBy};
ghost use Rattle.rtl_passes_marks.specs.Marks.{AreFeeders};
ghost use Rattle.rtl_passes_marks.specs.Ranked.{RiseFrom};
ghost use Rattle.rtl_passes_facts.specs.Edges.{nodes_of};
ghost use Rattle.rtl_passes_facts.specs.Handed.{standing_at, AreInOrder, LeadsToMarked, LeadsOnMarked, RiseAtMarked, IsRightBy, IsRightFilled, IsHandedBehind, IsHandedOn};
ghost use Rattle.rtl_passes_filled.specs.Rules.{facts_at, LeadsTo, MayBecome};

use crate::carry::carry;
use crate::edges::Edges;
use crate::rules::Rules;
use crate::walk::are_known;
use lang_base::{NoMemory, Row};
use rtl_passes_marks::{
    Function, Instruction, NodeRow, Said, empty_lists, feeds_any, hand_on, is_fed, is_same, take,
};
use std::alloc::Global;

/// Finds the lowest node that breaks a rule.
pub(crate) fn lowest_wrong<R: Rules>(
    alloc: Global,
    input: &Function,
    output: &Function,
    feeders: &[Option<u16>],
    rows: &[NodeRow<R::Fact>],
) -> Result<Option<u16>, NoMemory>
    requires same { HasSameShape input.now output.now }
    requires feeders { AreFeeders input.now.entry input.now.nodes feeders.now }
    requires rows { AreInOrder R.rules input.now rows.now }
    ensures { IfOk result (TellsLowest (IsRightFilled R.rules input.now output.now rows.now) (length input.now.nodes)) }
{
    let inputs = input.nodes().as_slice();
    let outputs = output.nodes().as_slice();
    let entry = input.entry();
    let said = Said::of(alloc, inputs.len(), rows)?;
    let mut lists = empty_lists(alloc, inputs.len())?.into_vec();
    for (n, instruction) in inputs.iter().enumerate() {
        let node = n as u16;
        let other = &outputs[n];
        if !turn::<R>(
            alloc,
            entry,
            feeders,
            &said,
            &mut lists,
            node,
            instruction,
            other,
        )? {
            return Ok(Some(node));
        }
    }
    Ok(None)
}

/// Whether the node keeps the rules where its list was handed on, or is said. If it does, what is known behind it is
/// handed on to those that it feeds.
fn turn<R: Rules>(
    alloc: Global,
    entry: u16,
    feeders: &[Option<u16>],
    said: &Said<R::Fact>,
    lists: &mut [Row<R::Fact>],
    n: u16,
    input: &Instruction,
    output: &Instruction,
) -> Result<bool, NoMemory>
    requires within { n < length lists.old }
    requires facts { RiseFrom R.rules.rank 0 (standing_at feeders.now said.now lists.old n) }
    requires said { RiseAtMarked R.rules feeders.now said.now }
    ensures right { IfOk result (λ y. IsTrue y
        ↔ IsRightBy R.rules entry feeders.now said.now (standing_at feeders.now said.now lists.old n) n input.now output.now) }
    ensures on { IfOk result (λ y. IsTrue y → IsHandedOn R.rules feeders.now said.now n input.now lists.old lists.new) }
{
    let place = usize::from(n);
    if is_fed(feeders, place) {
        let facts = take(alloc, lists, place);
        let right = is_right::<R>(entry, n, input, output, feeders, said, facts.as_slice());
        if right {
            hand_behind::<R>(alloc, feeders, lists, n, input, facts)?;
        }
        return Ok(right);
    }
    let facts = said.at(place);
    let right = is_right::<R>(entry, n, input, output, feeders, said, facts);
    if right {
        copy_behind::<R>(alloc, feeders, lists, n, input, facts)?;
    }
    Ok(right)
}

/// Hands on what is known behind these facts to the nodes that this one feeds; where that is none, nothing is made.
fn hand_behind<R: Rules>(
    alloc: Global,
    feeders: &[Option<u16>],
    lists: &mut [Row<R::Fact>],
    n: u16,
    input: &Instruction,
    facts: Vec<R::Fact>,
) -> Result<(), NoMemory>
    requires { RiseFrom R.rules.rank 0 facts.items }
    ensures { OnOk result (IsHandedBehind R.rules feeders.now n input.now facts.items lists.old lists.new) }
{
    if !feeds_any(feeders, n, input) {
        return Ok(());
    }
    hand_carried::<R>(alloc, feeders, lists, n, input, facts)
}

/// The same without asking whether the node feeds any.
fn hand_carried<R: Rules>(
    alloc: Global,
    feeders: &[Option<u16>],
    lists: &mut [Row<R::Fact>],
    n: u16,
    input: &Instruction,
    facts: Vec<R::Fact>,
) -> Result<(), NoMemory>
    requires { RiseFrom R.rules.rank 0 facts.items }
    ensures { OnOk result (IsHandedBehind R.rules feeders.now n input.now facts.items lists.old lists.new) }
{
    let mut facts = facts;
    carry::<R>(&mut facts, input)?;
    hand_on(alloc, feeders, lists, n, input, Row::from_vec(facts))
}

/// The facts in memory of their own, with room for one that the instruction makes.
fn copied_with_room<T: Copy>(alloc: Global, facts: &[T]) -> Result<Vec<T>, NoMemory>
    ensures { IfOk result (λ copy. copy.items ≡ facts.now) }
{
    let mut copy = Vec::with_capacity(alloc, facts.len().saturating_add(1))?;
    copy.extend_from_slice(facts)?;
    Ok(copy)
}

/// Hands on what is known behind a row's facts, which are copied only if they are handed on.
fn copy_behind<R: Rules>(
    alloc: Global,
    feeders: &[Option<u16>],
    lists: &mut [Row<R::Fact>],
    n: u16,
    input: &Instruction,
    facts: &[R::Fact],
) -> Result<(), NoMemory>
    requires { RiseFrom R.rules.rank 0 facts.now }
    ensures { OnOk result (IsHandedBehind R.rules feeders.now n input.now facts.now lists.old lists.new) }
{
    if !feeds_any(feeders, n, input) {
        return Ok(());
    }
    let copy = copied_with_room(alloc, facts)?;
    hand_carried::<R>(alloc, feeders, lists, n, input, copy)
}

/// Whether the node keeps the rules where these facts stand at it. Edges to nodes that are not marked lead to what
/// is known behind the instruction, so they are not tested.
fn is_right<R: Rules>(
    entry: u16,
    n: u16,
    input: &Instruction,
    output: &Instruction,
    feeders: &[Option<u16>],
    said: &Said<R::Fact>,
    facts: &[R::Fact],
) -> bool
    requires said { RiseAtMarked R.rules feeders.now said.now }
    requires facts { RiseFrom R.rules.rank 0 facts.now }
    ensures { IsTrue result ↔ IsRightBy R.rules entry feeders.now said.now facts.now n input.now output.now }
{
    if !is_bare_at(entry, n, facts) {
        return false;
    }
    leads_on::<R>(feeders, said, facts, input) && may_become::<R>(facts, input, output)
}

/// Whether there are no facts if the node is the entry.
fn is_bare_at<T>(entry: u16, n: u16, facts: &[T]) -> bool
    ensures { IsTrue result ↔ (n ≡ entry → facts.now ≡ []) }
{
    n != entry || has_none(facts)
}

fn has_none<T>(facts: &[T]) -> bool
    ensures { IsTrue result ↔ (facts.now ≡ []) }
{
    facts.is_empty()
}

/// Whether the facts at the marked nodes where the instruction can go on are known behind it.
fn leads_on<R: Rules>(
    feeders: &[Option<u16>],
    said: &Said<R::Fact>,
    facts: &[R::Fact],
    instruction: &Instruction,
) -> bool
    requires said { RiseAtMarked R.rules feeders.now said.now }
    requires facts { RiseFrom R.rules.rank 0 facts.now }
    ensures { IsTrue result ↔ LeadsOnMarked R.rules feeders.now said.now facts.now instruction.now }
{
    lead_each::<R>(
        feeders,
        said,
        facts,
        instruction,
        R::edges(instruction, facts),
    )
}

/// Whether the facts at the marked ones of these nodes are known behind the instruction.
fn lead_each<R: Rules>(
    feeders: &[Option<u16>],
    said: &Said<R::Fact>,
    facts: &[R::Fact],
    instruction: &Instruction,
    edges: Edges,
) -> bool
    requires said { RiseAtMarked R.rules feeders.now said.now }
    requires facts { RiseFrom R.rules.rank 0 facts.now }
    ensures { IsTrue result ↔ All (LeadsToMarked R.rules feeders.now said.now facts.now instruction.now) (nodes_of edges) }
{
    match edges {
        Edges::NoNode => true,
        Edges::OneNode(first) => leads_to_marked::<R>(feeders, said, facts, instruction, first),
        Edges::TwoNodes(first, second) => {
            leads_to_marked::<R>(feeders, said, facts, instruction, first)
                && leads_to_marked::<R>(feeders, said, facts, instruction, second)
        }
    }
}

/// Whether the node is marked, as these tell.
fn is_marked(feeders: &[Option<u16>], node: u16) -> bool
    ensures { IsTrue result ↔ IsMarkedBy feeders.now node }
{
    match feeders.get(usize::from(node)) {
        Some(feeder) => feeder.is_none(),
        None => false,
    }
}

/// Whether the facts at this node are known behind the instruction if it is marked.
fn leads_to_marked<R: Rules>(
    feeders: &[Option<u16>],
    said: &Said<R::Fact>,
    facts: &[R::Fact],
    instruction: &Instruction,
    successor: u16,
) -> bool
    requires said { RiseAtMarked R.rules feeders.now said.now }
    requires facts { RiseFrom R.rules.rank 0 facts.now }
    ensures { IsTrue result ↔ LeadsToMarked R.rules feeders.now said.now facts.now instruction.now successor }
{
    if !is_marked(feeders, successor) {
        return true;
    }
    leads_to::<R>(said, facts, instruction, successor)
}

/// Whether the facts at this node are known behind the instruction.
#[inline(never)]
fn leads_to<R: Rules>(
    said: &Said<R::Fact>,
    facts: &[R::Fact],
    instruction: &Instruction,
    successor: u16,
) -> bool
    requires after { RiseFrom R.rules.rank 0 (facts_at said.now successor) }
    requires facts { RiseFrom R.rules.rank 0 facts.now }
    ensures { IsTrue result ↔ LeadsTo R.rules said.now facts.now instruction.now successor }
{
    let after = said.at(usize::from(successor));
    are_known::<R>(instruction, facts, after)
}

/// Whether the output is the input, or what the facts allow it to be made.
fn may_become<R: Rules>(facts: &[R::Fact], input: &Instruction, output: &Instruction) -> bool
    requires { RiseFrom R.rules.rank 0 facts.now }
    ensures { IsTrue result ↔ MayBecome R.rules facts.now input.now output.now }
{
    is_same(output, input) || R::is_allowed(facts, input, output)
}
