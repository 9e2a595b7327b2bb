ghost use Rattle.std.specs.Prelude.{◌≡◌, ℕ, ◌↔◌, ◌≤◌, IsTrue, length};
ghost use Rattle.std.specs.List.{list_any};
ghost use Rattle.paxos_core_world.specs.Quorum.{count_below, is_promise_quorum};
ghost use Rattle.paxos_core_world.specs.World.{Has};
ghost use Rattle.paxos_core_world.specs.declared.msg.Msg.TheVariants.{Prepare, Propose};
ghost use Rattle.paxos_reference.specs.Tests.{has_promised, has_voted, is_accepted, is_highest, is_prepare, is_promise, is_proposal, is_propose, is_tally, is_within};

use paxos_core_world::msg::Msg;
use paxos_core_world::quorum::{Quorums, is_accept_quorum, is_promise_quorum};
use paxos_core_world::vote::Vote;

/// Whether `Prepare(ballot)` was sent.
pub fn is_prepared(sent: &[Msg], ballot: u16) -> bool
    ensures { IsTrue result ↔ Has (Prepare ballot) sent.now }
{
    sent.iter().any(|message| is_prepare(*message, ballot))
}

/// Whether `Propose(ballot, value)` was sent.
pub fn is_proposed(sent: &[Msg], ballot: u16, value: u16) -> bool
    ensures { IsTrue result ↔ Has (Propose ballot value) sent.now }
{
    sent.iter()
        .any(|message| is_propose(*message, ballot, value))
}

/// Whether nothing was proposed under the ballot.
pub fn is_unproposed(sent: &[Msg], ballot: u16) -> bool
    ensures { IsTrue result ↔ ((v : ℕ) → ¬ Has (Propose ballot v) sent.now) }
{
    !sent.iter().any(|message| is_proposal(*message, ballot))
}

/// Whether a promise quorum's promises for the ballot report no vote above `most`, or none at all.
pub fn is_promised(sent: &[Msg], quorums: Quorums, ballot: u16, most: Option<u16>) -> bool
    ensures { result ≡ is_promise_quorum quorums (has_promised sent.now ballot most) }
{
    let count = usize::from(quorums.nodes());
    is_promise_quorum(quorums, count_promised(sent, count, ballot, most))
}

/// Whether the value is that of the highest vote that promises of some promise quorum for the ballot report.
pub fn is_adopted(sent: &[Msg], quorums: Quorums, ballot: u16, value: u16) -> bool
    ensures { result ≡ list_any (is_highest sent.now quorums ballot value) sent.now }
{
    sent.iter().any(|message| is_highest(sent, quorums, *message, ballot, value))
}

/// Whether an accept quorum voted for the value under one ballot.
pub fn is_chosen(sent: &[Msg], quorums: Quorums, value: u16) -> bool
    ensures { result ≡ list_any (is_tally sent.now quorums value) sent.now }
{
    sent.iter()
        .any(|message| is_tally(sent, quorums, *message, value))
}

/// Whether the message is a promise whose reported vote is for the value, and is the highest that promises of some
/// promise quorum report.
fn is_highest(sent: &[Msg], quorums: Quorums, message: Msg, ballot: u16, value: u16) -> bool
    ensures { result ≡ is_highest sent.now quorums ballot value message }
{
    match message {
        Msg::Promise(from, promised, Some(vote)) => {
            from < quorums.nodes()
                && promised == ballot
                && vote.value == value
                && is_promised(sent, quorums, ballot, Some(vote.ballot))
        }
        _ => false,
    }
}

/// Whether the message is a vote for the value, and an accept quorum voted as it does.
fn is_tally(sent: &[Msg], quorums: Quorums, message: Msg, value: u16) -> bool
    ensures { result ≡ is_tally sent.now quorums value message }
{
    match message {
        Msg::Accepted(_, ballot, voted) => {
            let count = usize::from(quorums.nodes());
            voted == value && is_accept_quorum(quorums, count_voted(sent, count, ballot, value))
        }
        _ => false,
    }
}

/// How many nodes sent a promise for the ballot that reports no vote above `most`.
fn count_promised(sent: &[Msg], count: usize, ballot: u16, most: Option<u16>) -> usize
    ensures value { result ≡ count_below count (has_promised sent.now ballot most) }
    ensures bound { result ≤ count }
{
    let mut promised = 0;
    for node in 0..count {
        if has_promised(sent, node, ballot, most) {
            promised += 1;
        }
    }
    promised
}

/// How many nodes voted for the value under the ballot.
fn count_voted(sent: &[Msg], count: usize, ballot: u16, value: u16) -> usize
    ensures value { result ≡ count_below count (has_voted sent.now ballot value) }
    ensures bound { result ≤ count }
{
    let mut voted = 0;
    for node in 0..count {
        if has_voted(sent, node, ballot, value) {
            voted += 1;
        }
    }
    voted
}

fn has_promised(sent: &[Msg], node: usize, ballot: u16, most: Option<u16>) -> bool
    ensures { result ≡ has_promised sent.now ballot most node }
{
    sent.iter()
        .any(|message| is_promise(*message, node, ballot, most))
}

fn has_voted(sent: &[Msg], node: usize, ballot: u16, value: u16) -> bool
    ensures { result ≡ has_voted sent.now ballot value node }
{
    sent.iter()
        .any(|message| is_accepted(*message, node, ballot, value))
}

fn is_prepare(message: Msg, ballot: u16) -> bool
    ensures { result ≡ is_prepare ballot message }
{
    match message {
        Msg::Prepare(prepared) => prepared == ballot,
        _ => false,
    }
}

fn is_propose(message: Msg, ballot: u16, value: u16) -> bool
    ensures { result ≡ is_propose ballot value message }
{
    match message {
        Msg::Propose(under, proposed) => under == ballot && proposed == value,
        _ => false,
    }
}

fn is_proposal(message: Msg, ballot: u16) -> bool
    ensures { result ≡ is_proposal ballot message }
{
    match message {
        Msg::Propose(under, _) => under == ballot,
        _ => false,
    }
}

fn is_promise(message: Msg, node: usize, ballot: u16, most: Option<u16>) -> bool
    ensures { result ≡ is_promise node ballot most message }
{
    match message {
        Msg::Promise(from, promised, report) => {
            usize::from(from) == node && promised == ballot && is_within(report, most)
        }
        _ => false,
    }
}

fn is_accepted(message: Msg, node: usize, ballot: u16, value: u16) -> bool
    ensures { result ≡ is_accepted node ballot value message }
{
    match message {
        Msg::Accepted(from, under, voted) => {
            usize::from(from) == node && under == ballot && voted == value
        }
        _ => false,
    }
}

/// Whether the report names no vote, or one of a ballot that is not above `most`.
fn is_within(report: Option<Vote>, most: Option<u16>) -> bool
    ensures { result ≡ is_within most report }
{
    match (report, most) {
        (None, _) => true,
        (Some(vote), Some(most)) => vote.ballot <= most,
        (Some(_), None) => false,
    }
}
