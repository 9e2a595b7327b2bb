ghost use Rattle.std.specs.Prelude.{◌≡◌, ◌<◌, ◌+◌, length, IfOk, IfSome, OnOk, OnErr};
ghost use Rattle.paxos_core_world.specs.Quorum.{AreQuorums};
ghost use Rattle.paxos_core_world.specs.Settled.{Settled};
ghost use Rattle.paxos_core_world.specs.World.{nodes_of};
ghost use Rattle.rooms_words.specs.Deal.{dealing};
ghost use Rattle.rooms_meeting.specs.RoomAt.{HasWords};
ghost use Rattle.rooms_meeting.specs.SeatState.{opened_acceptor, opened_proposer, opened_seat, opening_of, CanOpen};
ghost use Rattle.rooms_words.specs.Words.{IsVoteInWord};
ghost use Rattle.rooms_meeting.specs.Seen.{acceptor_shown, proposer_shown};
ghost use Rattle.rooms_seat.specs.Dealing.{room_opened, AreAsMany};

use crate::seat::WordSeat;
use paxos_core_world::kept::Kept;
use paxos_core_world::quorum::Quorums;
use rooms_meeting::view::Openings;
use rooms_meeting::{Rights, SeenWords, open_one};
use rooms_words::acceptor::AcceptorWord;
use rooms_words::proposer::ProposerWord;
use rooms_words::view::Opening;
use std::alloc::{AllocError, Global};
use std::marker::Model;

/// Deals out the seats of a room that was just opened, in the order of the nodes.
#[derive(Drop)]
pub struct Dealer {
    rights: Rights,
    opening: Opening,
    next: u8,
}

impl Model for Dealer {
    ghost use Rattle.rooms_seat.specs.Dealing.{Dealing, IsDealing};

    ghost Value = { Dealing };

    ghost view = { λ s. record { table = s.rights.at; opening = s.opening; next = s.next } };

    ghost invariant = { λ s. IsDealing s.rights.me.0 record { table = s.rights.at; opening = s.opening; next = s.next } };
}

/// The dealers of four rooms in one table.
#[derive(Drop)]
pub struct FourDealers {
    pub first: Dealer,
    pub second: Dealer,
    pub third: Dealer,
    pub fourth: Dealer,
}

impl Dealer {
    /// A room whose nodes have kept these parts, in their order, alone in its table, which has the number 0: no seat is dealt yet. The
    /// words show the parts, and no proposal.
    pub fn open(alloc: Global, kept: &[Kept], quorums: Quorums) -> Result<Dealer, AllocError>
        requires size { length kept.now ≡ quorums.nodes }
        requires settled { Settled quorums (nodes_of kept.now) }
        ensures opening { IfOk result (λ dealer. dealer.opening ≡ opening_of quorums kept.now) }
        ensures next { IfOk result (λ dealer. dealer.next ≡ 0) }
    {
        let opening = opening_of(kept, quorums);
        let openings = Openings {
            rooms: 1,
            each: [opening, opening, opening, opening],
            number: 0,
        };
        let rights = open_one(alloc, &openings)?;
        Ok(Dealer::of(rights, &opening))
    }

    /// Deals the seats of a room that was just opened so.
    fn of(rights: Rights, opening: &Opening) -> Dealer
        requires can { CanOpen opening.now }
        requires words { HasWords rights.at opening.now.quorums.nodes }
        requires view { rights.me.0 ≡ dealing opening.now 0 }
        ensures { result ≡ record { table = rights.at; opening = opening.now; next = 0 } }
    {
        Dealer {
            rights,
            opening: *opening,
            next: 0,
        }
    }

    /// The next node's seat.
    pub fn deal(&mut self) -> Result<WordSeat, AllocError>
        requires { self.old.next < self.old.opening.quorums.nodes }
        ensures seat { IfOk result (λ seat. seat ≡ opened_seat self.old.table self.old.opening self.old.next) }
        ensures ok { OnOk result (self.new ≡ record self.old { next = self.old.next + 1 }) }
        ensures err { OnErr result (self.new ≡ self.old) }
    {
        let mine = self.rights.deal()?;
        let me = self.next;
        self.next += 1;
        Ok(WordSeat::new(mine, &self.opening, me))
    }
}

/// Four rooms of the same nodes in one table of this number, from what the nodes have kept of each: no seat is dealt yet.
pub fn open_four(
    alloc: Global,
    number: u64,
    first: &[Kept],
    second: &[Kept],
    third: &[Kept],
    fourth: &[Kept],
    quorums: Quorums,
) -> Result<FourDealers, AllocError>
    requires count { AreAsMany quorums.nodes first.now second.now third.now fourth.now }
    requires first { Settled quorums (nodes_of first.now) }
    requires second { Settled quorums (nodes_of second.now) }
    requires third { Settled quorums (nodes_of third.now) }
    requires fourth { Settled quorums (nodes_of fourth.now) }
    ensures first { IfOk result (λ all. all.first ≡ room_opened all.first.table.table number 4 0 quorums first.now) }
    ensures second { IfOk result (λ all. all.second ≡ room_opened all.first.table.table number 4 1 quorums second.now) }
    ensures third { IfOk result (λ all. all.third ≡ room_opened all.first.table.table number 4 2 quorums third.now) }
    ensures fourth { IfOk result (λ all. all.fourth ≡ room_opened all.first.table.table number 4 3 quorums fourth.now) }
{
    let opening1 = opening_of(first, quorums);
    let opening2 = opening_of(second, quorums);
    let opening3 = opening_of(third, quorums);
    let opening4 = opening_of(fourth, quorums);
    let openings = Openings {
        rooms: 4,
        each: [opening1, opening2, opening3, opening4],
        number,
    };
    let rights = rooms_meeting::open_four(alloc, &openings)?;
    Ok(FourDealers {
        first: Dealer::of(rights.first, &opening1),
        second: Dealer::of(rights.second, &opening2),
        third: Dealer::of(rights.third, &opening3),
        fourth: Dealer::of(rights.fourth, &opening4),
    })
}

/// The opening of a room of these kept parts.
fn opening_of(kept: &[Kept], quorums: Quorums) -> Opening
    requires size { length kept.now ≡ quorums.nodes }
    requires settled { Settled quorums (nodes_of kept.now) }
    ensures same { result ≡ opening_of quorums kept.now }
    ensures can { CanOpen result }
    ensures sizes { AreQuorums quorums }
{
    let _nodes = quorums.nodes();
    let opening = padded(kept, quorums);
    opening
}

/// The kept parts in a row of seven.
fn padded(kept: &[Kept], quorums: Quorums) -> Opening
    ensures { result ≡ opening_of quorums kept.now }
{
    Opening {
        quorums,
        kept: [
            kept_of(kept, 0),
            kept_of(kept, 1),
            kept_of(kept, 2),
            kept_of(kept, 3),
            kept_of(kept, 4),
            kept_of(kept, 5),
            kept_of(kept, 6),
        ],
    }
}

/// What the node of that number has kept.
fn kept_of(kept: &[Kept], node: usize) -> Kept
    ensures { result ≡ nodes_of kept.now node }
{
    match kept.get(node) {
        Some(part) => *part,
        None => Kept::nothing(),
    }
}

/// The numbers of a node's two words as the room opens.
pub(crate) fn opened_words(kept: Kept) -> SeenWords
    requires { IfSome kept.accepted IsVoteInWord }
    ensures proposer { proposer_shown result ≡ opened_proposer kept }
    ensures acceptor { acceptor_shown result ≡ opened_acceptor kept }
{
    let proposer = ProposerWord {
        started: kept.started(),
        proposed: None,
    };
    let acceptor = AcceptorWord {
        promised: kept.promised(),
        accepted: kept.accepted(),
    };
    SeenWords {
        proposer: proposer.pack(),
        acceptor: acceptor.pack(),
    }
}
