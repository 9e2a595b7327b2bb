use crate::view::View;
use atomic_table::{Join, Play, Split, TableRule};
use std::marker::{Brand, PhantomData};

/// The rule of a hall's word.
pub struct HallLaw;

impl TableRule<(), View, ()> for HallLaw {
    ghost use Rattle.rooms_hall.specs.Rule.{nothing, HallRule};

    ghost holds = { λ k s. HallRule s };

    ghost first = { λ k. nothing };
}

/// Names the room that a number is given to. Each call that gives one picks it.
pub trait Claiming {
    ghost use Rattle.rooms_hall.specs.RoomId.{RoomId};

    ghost room: { RoomId };
}

impl Claiming for Brand {
    ghost use Rattle.rooms_hall.specs.RoomId.{nowhere};

    ghost room = { nowhere };
}

/// A load by which a claim that knows of no number yet comes in.
pub struct Enters;

impl Play<(), View> for Enters {
    ghost use Rattle.rooms_hall.specs.Steps.{Entered};

    ghost then = { λ s v n w. Entered s v n w };
}

/// A try to take the next number.
pub struct Draws;

impl Play<(), View> for Draws {
    ghost use Rattle.rooms_hall.specs.Steps.{Drew};

    ghost then = { λ s v n w. Drew s v n w };
}

/// A load by which the number that was drawn is given to a room.
pub struct Names<C: Claiming> {
    of: PhantomData<C>,
}

impl<C: Claiming> Play<(), View> for Names<C> {
    ghost use Rattle.rooms_hall.specs.Steps.{Named};

    ghost then = { λ s v n w. Named C.room s v n w };
}

/// A claim makes a witness of what it knows, and another claim takes that in.
pub struct Tells;

impl Split<View> for Tells {
    ghost left = { λ v. v };

    ghost right = { λ v. v };
}

impl Join<View> for Tells {
    ghost use Rattle.rooms_hall.specs.Rule.{both, nothing};

    ghost both = { both };

    ghost spent = { nothing };
}

/// A load that compares all that a claim knows of.
pub struct Compares;

impl Play<(), View> for Compares {
    ghost use Rattle.rooms_hall.specs.Steps.{Compared};

    ghost then = { λ s v n w. Compared s v n w };
}
