ghost use Rattle.std.specs.Prelude.{◌≡◌, ◌≢◌, IfOk, MatchBool};
ghost use Rattle.std.specs.Arc.{arc_value};
ghost use Rattle.rooms_hall.specs.RoomId.{AreNumbered};

use crate::hall::{Board, Naming};
use crate::rule::{Compares, Tells};
use crate::view::View;
use atomic_table::Seat as Token;
use std::alloc::AllocError;
use std::marker::{Model, PhantomData};
use std::sync::Arc;

/// That a room has a number of a hall. A clause sees the number, and which room it is.
#[derive(Drop)]
pub struct Claim<H: Naming> {
    pub(crate) number: u64,
    pub(crate) token: Token<(), View>,
    pub(crate) board: Arc<Board>,
    pub(crate) of: PhantomData<H>,
}

impl<H: Naming> Model for Claim<H> {
    ghost use Rattle.std.specs.Arc.{arc_value};
    ghost use Rattle.rooms_hall.specs.Claimed.{Claimed, IsClaim, room_of};

    ghost Value = { Claimed };

    ghost view = { λ c. record { number = c.number; room = room_of c.token.me.0 } };

    ghost invariant = { λ c. IsClaim H.hall (arc_value c.board).shared.table_id c.token.table_id c.number c.token.me.0 };
}

impl<H: Naming> Claim<H> {
    /// The number.
    pub fn number(&self) -> u64
        ensures value { result ≡ self.now.number }
        ensures tables { AreNumbered self.now.number self.now.room.places }
    {
        self.number
    }

    /// The same claim once more, for another seat of the room. It costs a load of the hall's word.
    pub fn again(&mut self) -> Result<Claim<H>, AllocError>
        ensures same { IfOk result (λ c. c ≡ self.old) }
        ensures kept { self.new ≡ self.old }
    {
        let board = Arc::try_clone(&self.board)?;
        let token = self.board.shared.split_seat::<Tells>(&mut self.token);
        Ok(Claim {
            number: self.number,
            token,
            board,
            of: PhantomData,
        })
    }

    /// Whether the two claims are of one room: loads nothing where the numbers differ, else the hall's word three times.
    pub fn compare(&mut self, other: &mut Claim<H>) -> bool
        ensures numbered { AreNumbered self.old.number self.old.room.places }
        ensures others { AreNumbered other.old.number other.old.room.places }
        ensures told { MatchBool result (self.old ≡ other.old) (self.old.number ≢ other.old.number) }
        ensures mine { self.new ≡ self.old }
        ensures other { other.new ≡ other.old }
    {
        if self.number != other.number {
            return false;
        }
        let witness = other.board.shared.split_seat::<Tells>(&mut other.token);
        self.board
            .shared
            .join_seat::<Tells>(&mut self.token, witness);
        let _found = self.board.shared.load::<Compares>(&mut self.token, 0);
        true
    }
}
