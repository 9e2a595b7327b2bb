ghost use Rattle.std.specs.Prelude.{◌≡◌};
ghost use Rattle.std.specs.Arc.{arc_value};
ghost use Rattle.rooms_hall.specs.Claimed.{IsDrawn};
ghost use Rattle.rooms_hall.specs.RoomId.{AreNumbered};

use crate::claim::Claim;
use crate::hall::{Board, DrawError, Hall, Naming};
use crate::rule::{Claiming, Draws, Enters, Names};
use crate::view::View;
use atomic_table::Seat as Token;
use std::marker::{Model, PhantomData};
use std::sync::Arc;

/// A number that was drawn from a hall and that no room has yet. It is given to one room, whose tables are opened with it. A clause
/// sees it as the number.
#[derive(Drop)]
pub struct Drawn<H: Naming> {
    number: u64,
    token: Token<(), View>,
    board: Arc<Board>,
    of: PhantomData<H>,
}

impl<H: Naming> Model for Drawn<H> {
    ghost use Rattle.std.specs.Prelude.{ℕ};
    ghost use Rattle.std.specs.Arc.{arc_value};
    ghost use Rattle.rooms_hall.specs.Claimed.{IsDrawn};

    ghost Value = { ℕ };

    ghost view = { λ d. d.number };

    ghost invariant = { λ d. IsDrawn H.hall (arc_value d.board).shared.table_id d.token.table_id d.number d.token.me.0 };
}

impl<H: Naming> Hall<H> {
    /// Draws the next number: loads the hall's word, and takes the number that it found by a compare-exchange, again where
    /// somebody else has taken it first.
    pub fn draw(&self) -> Result<Drawn<H>, DrawError> {
        let Ok(board) = Arc::try_clone(&self.board) else {
            return Err(DrawError::NoMemory);
        };
        let (mut found, mut token) = self.board.shared.load_new_seat::<Enters>(0);
        for tried in 0..u64::MAX {
            let _tries = tried;
            let number = found;
            let Some(next) = number.checked_add(1) else {
                break;
            };
            found = self
                .board
                .shared
                .compare_exchange::<Draws>(&mut token, 0, number, next);
            if found == number {
                return Ok(Drawn {
                    number,
                    token,
                    board,
                    of: PhantomData,
                });
            }
        }
        Err(DrawError::Spent)
    }
}

impl<H: Naming> Drawn<H> {
    /// The number.
    pub fn number(&self) -> u64
        ensures { result ≡ self.now }
    {
        self.number
    }

    /// The claim of the room that `C` names, which has the number from now on. It costs a load of the hall's word.
    pub fn claim<C: Claiming>(self) -> Claim<H>
        requires { AreNumbered self C.room.places }
        ensures { result ≡ record { number = self; room = C.room } }
    {
        let Drawn {
            number,
            token,
            board,
            of: _,
        } = self;
        let mut token = token;
        let _found = board.shared.load::<Names<C>>(&mut token, 0);
        Claim {
            number,
            token,
            board,
            of: PhantomData,
        }
    }
}
