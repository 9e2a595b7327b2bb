ghost use Rattle.std.specs.Prelude.{◌≡◌, IfOk};
ghost use Rattle.std.specs.Arc.{arc_value};
ghost use Rattle.atomic_table.specs.Seated.{TableId};

use crate::rule::HallLaw;
use crate::view::View;
use atomic_table::Table;
use std::alloc::{AllocError, Global};
use std::marker::{Brand, Model, PhantomData};
use std::sync::Arc;

/// The word of a hall: the least number that was not given yet.
pub type Board = Table<(), View, (), HallLaw, Global>;

/// Names one hall. A program picks it once, as it names the hall that it has opened.
pub trait Naming {
    ghost use Rattle.atomic_table.specs.Seated.{TableId};

    ghost hall: { TableId };
}

impl Naming for Brand {
    ghost use Rattle.rooms_hall.specs.RoomId.{no_table};

    ghost hall = { no_table };
}

/// Why no number is given.
#[derive(Clone, Copy, Debug, Drop, PartialEq, Eq)]
pub enum DrawError {
    /// All numbers below 2^64 - 1 were given.
    Spent,
    /// There was no memory for one more share of the hall.
    NoMemory,
}

/// A hall that has no name yet. A clause sees it as its table.
#[derive(Drop)]
pub struct Opened {
    board: Arc<Board>,
}

impl Model for Opened {
    ghost use Rattle.std.specs.Prelude.{◌≡◌};
    ghost use Rattle.std.specs.Arc.{arc_value};
    ghost use Rattle.atomic_table.specs.Seated.{TableId, table_id_coded};

    ghost Value = { TableId };

    ghost coded = { table_id_coded };

    ghost view = { λ o. (arc_value o.board).shared.table_id };

    ghost invariant = { λ o. (arc_value o.board).shared.table_id.words ≡ 1 };
}

impl Opened {
    /// A hall in which no number was given.
    pub fn new(alloc: Global) -> Result<Opened, AllocError>
        ensures { IfOk result (λ hall. hall.words ≡ 1) }
    {
        let (board, _first) = Board::of_words(alloc, &[0], &())?;
        let board = Arc::new(alloc, board)?;
        Ok(Opened { board })
    }

    /// The hall, under its name.
    pub fn named<H: Naming>(self) -> Hall<H>
        requires { self ≡ H.hall }
        ensures { H.hall.words ≡ 1 }
    {
        let Opened { board } = self;
        Hall {
            board,
            of: PhantomData,
        }
    }
}

/// A hall under its name.
#[derive(Drop)]
pub struct Hall<H: Naming> {
    pub(crate) board: Arc<Board>,
    of: PhantomData<H>,
}

impl<H: Naming> Model for Hall<H> {
    ghost use Rattle.std.specs.Prelude.{◌≡◌};
    ghost use Rattle.std.specs.Arc.{arc_value};

    ghost Value = { Unit {0} };

    ghost view = { λ h. tt };

    ghost invariant = { λ h. ((arc_value h.board).shared.table_id ≡ H.hall) × (H.hall.words ≡ 1) };
}
