ghost use Rattle.std.specs.Prelude.{◌≡◌, ◌<◌, ◌≤◌, ◌*◌, IfOk, IfSome, None};
ghost use Rattle.std.specs.Arc.{arc_value};
ghost use Rattle.rooms_steps.specs.Words.{IsAcceptorWord, IsProposerWord, IsVoteInWord};
ghost use Rattle.rooms_table.specs.Family.{count_of};
ghost use Rattle.rooms_table.specs.Opened.{part_at, CanOpenAll, ShowFirst};
ghost use Rattle.rooms_rights.specs.Rights.{IsOpened};

use crate::rights::{Board, Rights};
use paxos_core_world::kept::Kept;
use rooms_steps::acceptor::AcceptorWord;
use rooms_steps::proposer::ProposerWord;
use rooms_table::rule::DealsRoom;
use rooms_table::view::Openings;
use std::alloc::{AllocError, Global};
use std::sync::Arc;

/// The rights in the rooms of a table of four.
#[derive(Drop)]
pub struct FourRights {
    pub first: Rights,
    pub second: Rights,
    pub third: Rights,
    pub fourth: Rights,
}

/// Opens a room that is alone: the rights of all its nodes. The words show what was kept, and no proposal.
pub fn open_one(alloc: Global, openings: &Openings) -> Result<Rights, AllocError>
    requires can { CanOpenAll openings.now }
    requires rooms { openings.now.rooms ≡ 1 }
    ensures { IfOk result (λ all. IsOpened openings.now all.at.table 0 all) }
{
    let words = opening_words(openings);
    let pairs = pairs_of(openings);
    let (table, token) = Board::of_words(alloc, &words[..2 * pairs], openings)?;
    let board = Arc::new(alloc, table)?;
    Ok(Rights {
        board,
        token,
        rooms: 1,
        room: 0,
        number: openings.number,
    })
}

/// Opens four rooms in one table: the rights of all nodes of each.
pub fn open_four(alloc: Global, openings: &Openings) -> Result<FourRights, AllocError>
    requires can { CanOpenAll openings.now }
    requires rooms { openings.now.rooms ≡ 4 }
    requires some { 0 < count_of openings.now }
    ensures first { IfOk result (λ all. IsOpened openings.now all.first.at.table 0 all.first) }
    ensures second { IfOk result (λ all. IsOpened openings.now all.first.at.table 1 all.second) }
    ensures third { IfOk result (λ all. IsOpened openings.now all.first.at.table 2 all.third) }
    ensures fourth { IfOk result (λ all. IsOpened openings.now all.first.at.table 3 all.fourth) }
{
    let words = opening_words(openings);
    let pairs = pairs_of(openings);
    let (table, mut token) = Board::of_words(alloc, &words[..2 * pairs], openings)?;
    let board = Arc::new(alloc, table)?;
    let (board0, board1, board2, board3) = four_shares(board)?;
    let token0 = board3.shared.split_seat::<DealsRoom>(&mut token);
    let token1 = board3.shared.split_seat::<DealsRoom>(&mut token);
    let token2 = board3.shared.split_seat::<DealsRoom>(&mut token);
    Ok(FourRights {
        first: Rights {
            board: board0,
            token: token0,
            rooms: 4,
            room: 0,
            number: openings.number,
        },
        second: Rights {
            board: board1,
            token: token1,
            rooms: 4,
            room: 1,
            number: openings.number,
        },
        third: Rights {
            board: board2,
            token: token2,
            rooms: 4,
            room: 2,
            number: openings.number,
        },
        fourth: Rights {
            board: board3,
            token,
            rooms: 4,
            room: 3,
            number: openings.number,
        },
    })
}

/// Four shares of a board.
fn four_shares(
    board: Arc<Board>,
) -> Result<(Arc<Board>, Arc<Board>, Arc<Board>, Arc<Board>), AllocError>
    ensures first { IfOk result (λ all. arc_value all.0 ≡ arc_value board) }
    ensures second { IfOk result (λ all. arc_value all.1 ≡ arc_value board) }
    ensures third { IfOk result (λ all. arc_value all.2 ≡ arc_value board) }
    ensures fourth { IfOk result (λ all. arc_value all.3 ≡ arc_value board) }
{
    let first = board.clone()?;
    let second = board.clone()?;
    let third = board.clone()?;
    Ok((first, second, third, board))
}

/// How many pairs of words there are.
#[tactic(auto, using(rooms_table::proofs::Opening::few_pairs))]
fn pairs_of(openings: &Openings) -> usize
    requires { CanOpenAll openings.now }
    ensures value { result ≡ count_of openings.now * openings.now.rooms }
    ensures most { result ≤ 28 }
{
    let all = &openings.each[..];
    usize::from(all[0].quorums.nodes()) * usize::from(openings.rooms)
}

/// The words with which the rooms open.
fn opening_words(openings: &Openings) -> [u64; 56]
    requires { CanOpenAll openings.now }
    ensures { ShowFirst openings.now (count_of openings.now * openings.now.rooms) result }
{
    let mut words = [0; 56];
    for pair in 0..pairs_of(openings) {
        let kept = part_at(openings, pair);
        words[2 * pair] = proposer_word(kept);
        words[2 * pair + 1] = acceptor_word(kept);
    }
    words
}

/// What the node of that pair of words has kept in its room.
fn part_at(openings: &Openings, pair: usize) -> Kept
    requires can { CanOpenAll openings.now }
    requires number { pair < count_of openings.now * openings.now.rooms }
    ensures { result ≡ part_at openings.now pair }
{
    let rooms = usize::from(openings.rooms);
    let all = &openings.each[..];
    let opening = &all[pair % rooms];
    opening.kept[pair / rooms]
}

/// The word of a proposer as its room opens.
fn proposer_word(kept: Kept) -> u64
    ensures { IsProposerWord result kept.started None }
{
    let word = ProposerWord {
        started: kept.started(),
        proposed: None,
    };
    word.pack()
}

/// The word of an acceptor as its room opens.
fn acceptor_word(kept: Kept) -> u64
    requires { IfSome kept.accepted IsVoteInWord }
    ensures { IsAcceptorWord result kept.promised kept.accepted }
{
    let word = AcceptorWord {
        promised: kept.promised(),
        accepted: kept.accepted(),
    };
    word.pack()
}
