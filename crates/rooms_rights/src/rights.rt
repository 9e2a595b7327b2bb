ghost use Rattle.std.specs.Prelude.{◌≡◌, ℕ, ◌<◌, [], true, IfOk, OnOk, OnErr};
ghost use mathlib.Core.Option.{none};
ghost use Rattle.atomic_table.specs.Table.{step};
ghost use Rattle.rooms_steps.specs.Deal.{dealing_rest, dealing_seat, informed};
ghost use Rattle.rooms_table.specs.Places.{place_of};
ghost use Rattle.rooms_rights.specs.Rights.{MayDeal, MayStep};
ghost use Rattle.rooms_rights.specs.Sweep.{CanLook, Found, MaySweep, SweptTo};

use crate::seen::SeenWords;
use atomic_table::{Play, Seat as Token, Shared, Table};
use rooms_steps::rule::{LooksAtAcceptor, LooksAtProposer};
use rooms_steps::view::View;
use rooms_table::play::In;
use rooms_table::rule::{DealsNode, TableLaw, Tells};
use rooms_table::view::{Openings, Views};
use std::alloc::{AllocError, Global};
use std::marker::Model;
use std::sync::Arc;

/// The words of a family of rooms.
pub type Board = Table<(), Views, Openings, TableLaw, Global>;

/// What each holder of rights shares of them.
type Words = Shared<(), Views, Openings, TableLaw>;

/// Rights in one room of a table: to step for the nodes that they are for. Each call is the step of a room that is alone.
#[derive(Drop)]
pub struct Rights {
    pub(crate) board: Arc<Board>,
    pub(crate) token: Token<(), Views>,
    pub(crate) rooms: u8,
    pub(crate) room: u8,
    /// The number with which the table was opened.
    pub(crate) number: u64,
}

impl Model for Rights {
    ghost use Rattle.std.specs.Arc.{arc_value};
    ghost use Rattle.rooms_table.specs.Family.{view_in};
    ghost use Rattle.rooms_rights.specs.Rights.{Held, HasRights};

    ghost Value = { Held };

    ghost view = { λ r. record {
      at = record { table = r.token.table_id; rooms = r.rooms; room = r.room; number = r.number };
      id = r.token.id;
      me = (view_in r.token.me.0 r.room, r.token.me.1);
    } };

    ghost invariant = { λ r. HasRights (arc_value r.board).shared.table_id
        record { table = r.token.table_id; rooms = r.rooms; room = r.room; number = r.number } r.token.me.0 };
}

impl Rights {
    /// Where a word of the room stands in the table.
    fn place(&self, word: usize) -> usize
        requires { word < 14 }
        ensures { result ≡ place_of self.now.at.rooms self.now.at.room word }
    {
        let pair = word / 2 * usize::from(self.rooms) + usize::from(self.room);
        2 * pair + word % 2
    }

    /// Loads a word of the room.
    pub fn load<M: Play<(), View>>(&mut self, word: usize) -> u64
        requires { MayStep self.old word (λ n. n) (M.then (step self.old.at.table.slots word 0 0 none) self.old.me) }
        ensures at { self.new.at ≡ self.old.at }
        ensures told { M.then (step self.old.at.table.slots word 0 0 none) self.old.me result self.new.me }
    {
        let place = self.place(word);
        self.board.shared.load::<In<M>>(&mut self.token, place)
    }

    /// Loads the words of the room's nodes, a proposer's and then its acceptor's, and puts down each proposer's number. Stops
    /// at the first acceptor's whose number is not the one that was seen: answers which node's it is, and what was found.
    #[inline(always)]
    pub fn sweep(&mut self, seen: &mut [SeenWords; 7], count: u8) -> Option<(u8, u64)>
        requires { MaySweep self.old count }
        ensures at { self.new.at ≡ self.old.at }
        ensures told { SweptTo result count self.old.me.0 seen.old self.new.me.0 seen.new }
    {
        let board = &self.board.shared;
        let stride = 2 * usize::from(self.rooms);
        let place = 2 * usize::from(self.room);
        let found = look(board, &mut self.token, place, &mut seen[0]);
        if found != seen[0].acceptor {
            return Some((0, found));
        }
        let place = place + stride;
        let found = look(board, &mut self.token, place, &mut seen[1]);
        if found != seen[1].acceptor {
            return Some((1, found));
        }
        let mut place = place;
        for j in 2..count {
            place += stride;
            let node = usize::from(j);
            let found = look(board, &mut self.token, place, &mut seen[node]);
            if found != seen[node].acceptor {
                return Some((j, found));
            }
        }
        None
    }

    /// Stores a word of the room.
    pub fn store<M: Play<(), View>>(&mut self, word: usize, number: u64)
        requires { MayStep self.old word (λ _. number)
            (λ _. M.then (step self.old.at.table.slots word number 0 none) self.old.me number) }
        ensures at { self.new.at ≡ self.old.at }
        ensures told { M.then (step self.old.at.table.slots word number 0 none) self.old.me number self.new.me }
    {
        let place = self.place(word);
        self.board
            .shared
            .store::<In<M>>(&mut self.token, place, number);
    }

    /// The first node's part of the rights.
    pub fn deal(&mut self) -> Result<Rights, AllocError>
        requires { (k : ℕ) × MayDeal self.old k }
        ensures room { IfOk result (λ part. part.at ≡ self.old.at) }
        ensures part { IfOk result (λ part. part.me ≡ (dealing_seat self.old.me.0, [])) }
        ensures ok { OnOk result (self.new ≡ record self.old { me = (dealing_rest self.old.me.0, self.old.me.1) }) }
        ensures err { OnErr result (self.new ≡ self.old) }
    {
        let board = self.board.clone()?;
        let token = self.board.shared.split_seat::<DealsNode>(&mut self.token);
        Ok(Rights {
            board,
            token,
            rooms: self.rooms,
            room: self.room,
            number: self.number,
        })
    }

    /// Takes in what the holder of other rights in the room has seen.
    pub fn hear(&mut self, other: &mut Rights)
        requires room { self.old.at ≡ other.old.at }
        requires live { other.old.me.0.live ≡ true }
        requires words { 0 < self.old.at.table.words }
        ensures heard { self.new ≡ record self.old { me = (informed self.old.me.0 other.old.me.0, self.old.me.1) } }
        ensures other { other.new ≡ other.old }
    {
        let witness = other.board.shared.split_seat::<Tells>(&mut other.token);
        self.board
            .shared
            .join_seat::<Tells>(&mut self.token, witness);
    }
}

/// Loads the two words of a node that stand at this place: puts down its proposer's number, and answers its acceptor's.
#[inline(always)]
fn look(board: &Words, token: &mut Token<(), Views>, place: usize, seen: &mut SeenWords) -> u64
    requires { CanLook board.now.table_id token.old.table_id token.old.me place }
    ensures table { token.new.table_id ≡ token.old.table_id }
    ensures kept { seen.new.acceptor ≡ seen.old.acceptor }
    ensures found { Found board.now.table_id.slots place token.old.me seen.new.proposer result token.new.me }
{
    seen.proposer = board.load::<In<LooksAtProposer>>(token, place);
    board.load::<In<LooksAtAcceptor>>(token, place + 1)
}
