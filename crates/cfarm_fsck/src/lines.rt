ghost use Rattle.std.specs.Prelude.{◌≡◌, ◌++◌, IfOk, OnOk};
ghost use Rattle.std.specs.String.{string_bytes};
ghost use Rattle.cfarm_fsck.specs.Lines.{node_line, room_rest, told_of, voter, voters_from};

use cfarm_fsck_chosen::{chosen_in, is_under};
use lang_base::NoMemory;
use paxos_core_world::kept::Kept;
use paxos_core_world::vote::Vote;
use std::alloc::{AllocError, Global};

/// The line of a node: how many records its journal lists, and how many bytes it has.
pub fn node_line(
    alloc: Global,
    node: usize,
    records: usize,
    size: usize,
) -> Result<String, AllocError>
    ensures { IfOk result (λ text. string_bytes text ≡ node_line node records size) }
{
    format!(in alloc; "node {node} {records} records {size} bytes\n")
}

/// Writes the number of a node whose last vote is under the ballot.
fn push_voter(
    ballot: u16,
    node: usize,
    vote: Option<Vote>,
    text: &mut String,
) -> Result<(), NoMemory>
    ensures { OnOk result (string_bytes text.new ≡ string_bytes text.old ++ voter ballot node vote) }
{
    if is_under(ballot, vote) {
        write!(text, " {node}")?;
    }
    Ok(())
}

/// Writes the numbers of all such nodes.
fn push_voters(ballot: u16, nodes: &[Kept], text: &mut String) -> Result<(), NoMemory>
    ensures { OnOk result (string_bytes text.new ≡ string_bytes text.old ++ voters_from ballot 0 nodes.now) }
{
    for number in 0..nodes.len() {
        push_voter(ballot, number, nodes[number].accepted(), text)?;
    }
    Ok(())
}

/// What is told of a room in which this vote is chosen, or none.
fn push_told(vote: Option<Vote>, nodes: &[Kept], text: &mut String) -> Result<(), NoMemory>
    ensures { OnOk result (string_bytes text.new ≡ string_bytes text.old ++ told_of vote nodes.now) }
{
    match vote {
        None => text.push_str(" open\n")?,
        Some(vote) => {
            let (value, ballot) = (vote.value, vote.ballot);
            write!(text, " chosen {value} ballot {ballot} by")?;
            push_voters(ballot, nodes, text)?;
            text.push_str("\n")?;
        }
    }
    Ok(())
}

/// The line of a room of this pass, behind the name of its function, from what its nodes have kept; accept quorums have so many nodes.
pub fn room_rest(alloc: Global, pass: u8, accept: u8, nodes: &[Kept]) -> Result<String, NoMemory>
    ensures { IfOk result (λ text. string_bytes text ≡ room_rest pass accept nodes.now) }
{
    let mut text = format!(in alloc; " pass {pass}")?;
    push_told(chosen_in(accept, nodes), nodes, &mut text)?;
    Ok(text)
}
