use crate::view::Views;
use atomic_table::Play;
use rooms_words::view::View;
use std::marker::PhantomData;

/// A step in one room of a table tells what the step of that room tells.
pub struct In<M> {
    of: PhantomData<M>,
}

impl<M: Play<(), View>> Play<(), Views> for In<M> {
    ghost use Rattle.rooms_table.specs.Steps.{StepsInItsRoom};

    ghost then = { λ s v n w. StepsInItsRoom M.then s v n w };
}
