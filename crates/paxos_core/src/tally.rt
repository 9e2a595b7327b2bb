ghost use Rattle.std.specs.Prelude.{◌≡◌, ◌≤◌, length};
ghost use Rattle.paxos_core_late_offers.specs.Notes.{has_promised, has_voted, is_under, higher, highest_below};
ghost use Rattle.paxos_core_world.specs.Quorum.{count_below};

use paxos_core_world::vote::Vote;

/// How many of the first `count` nodes have promised.
pub fn count_promises(promises: &[Option<Option<Vote>>], count: usize) -> usize
    requires { count ≤ length promises.now }
    ensures value { result ≡ count_below count (has_promised promises.now) }
    ensures bound { result ≤ count }
{
    let mut promised = 0;
    for node in 0..count {
        if promises[node].is_some() {
            promised += 1;
        }
    }
    promised
}

/// How many of the first `count` nodes have voted under `ballot`.
pub fn count_votes(votes: &[Option<Vote>], count: usize, ballot: u16) -> usize
    requires { count ≤ length votes.now }
    ensures value { result ≡ count_below count (has_voted votes.now ballot) }
    ensures bound { result ≤ count }
{
    let mut voted = 0;
    for node in 0..count {
        if is_under(votes[node], ballot) {
            voted += 1;
        }
    }
    voted
}

fn is_under(noted: Option<Vote>, ballot: u16) -> bool
    ensures { result ≡ is_under ballot noted }
{
    match noted {
        Some(vote) => vote.ballot == ballot,
        None => false,
    }
}

/// The vote with the highest ballot that promises of the first `count` nodes report.
pub fn highest_report(promises: &[Option<Option<Vote>>], count: usize) -> Option<Vote>
    requires { count ≤ length promises.now }
    ensures { result ≡ highest_below count promises.now }
{
    let mut highest = None;
    for node in 0..count {
        if let Some(report) = promises[node] {
            highest = higher(highest, report);
        }
    }
    highest
}

fn higher(held: Option<Vote>, report: Option<Vote>) -> Option<Vote>
    ensures { result ≡ higher held report }
{
    match (held, report) {
        (Some(held), Some(vote)) if held.ballot < vote.ballot => Some(vote),
        (None, vote) => vote,
        (held, _) => held,
    }
}
