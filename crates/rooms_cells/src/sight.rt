ghost use Rattle.std.specs.Prelude.{◌≡◌, Some, None, IfSome, MatchOption};
ghost use Rattle.std.specs.Arc.{arc_value};
ghost use Rattle.once_cell.specs.Once.{cell_name};
ghost use Rattle.rooms_cells.specs.Seen.{IsPut};

use once_cell::race::{Note, OnceBox};
use std::alloc::{AllocFailed, Global};
use std::marker::Model;
use std::sync::Arc;

/// What became of a value that was to be put into a cell.
#[derive(Drop)]
pub enum Put<B: Drop> {
    /// It stands there.
    Yes,
    /// The cell refused it.
    No(B),
    /// There was no memory.
    NoMemory(B),
}

/// What one seat has seen of a cell. It holds a share of the value, so that it can lend it at any time.
#[derive(Drop)]
pub struct Sight<T: Drop> {
    note: Note<Arc<T>>,
    held: Option<Arc<T>>,
}

impl<T: Drop> Model for Sight<T> {
    ghost use Rattle.std.specs.Prelude.{option_map};
    ghost use Rattle.std.specs.Arc.{arc_value};
    ghost use Rattle.rooms_cells.specs.Seen.{SightOf, Holds};

    ghost Value = { SightOf T };

    ghost view = { λ s. record { cell = s.note.cell; value = option_map (λ x. arc_value x) s.held } };

    ghost invariant = { λ s. Holds (λ x. arc_value x) s.note.known s.held };
}

impl<T: Drop> Sight<T> {
    /// Nothing of the cell is seen yet.
    pub(crate) fn of(cell: &OnceBox<Arc<T>>) -> Self
        ensures { result ≡ record { cell = cell_name cell.now; value = None } }
    {
        Sight {
            note: cell.note(),
            held: None,
        }
    }

    /// Reads the cell. What was seen stays.
    pub(crate) fn look(&mut self, cell: &OnceBox<Arc<T>>)
        requires { self.old.cell ≡ cell_name cell.now }
        ensures cell { self.new.cell ≡ self.old.cell }
        ensures stays { IfSome self.old.value (λ x. self.new.value ≡ Some x) }
    {
        if self.held.is_some() {
            return;
        }
        if let Some(shown) = cell.get_as(&mut self.note) {
            if let Ok(mine) = Arc::try_clone(shown) {
                self.held = Some(mine);
            }
        }
    }

    /// Puts the value into the cell, if the cell takes it.
    pub(crate) fn put(
        &mut self,
        alloc: Global,
        cell: &OnceBox<Arc<T>>,
        value: Arc<T>,
    ) -> Put<Arc<T>>
        requires { self.old.cell ≡ cell_name cell.now }
        ensures { IsPut result value (arc_value value) self.old self.new }
    {
        let Ok(mine) = Arc::try_clone(&value) else {
            return Put::No(value);
        };
        let boxed = match Box::new(alloc, value) {
            Ok(boxed) => boxed,
            Err(AllocFailed { value }) => return Put::NoMemory(value),
        };
        match cell.set_as(boxed, &mut self.note) {
            Ok(()) => {
                self.held = Some(mine);
                Put::Yes
            }
            Err(back) => Put::No(Box::into_inner(back)),
        }
    }

    /// What two seats have seen in one cell is equal.
    pub(crate) fn compare(&mut self, other: &mut Sight<T>)
        requires { self.old.cell ≡ other.old.cell }
        ensures mine { self.new ≡ self.old }
        ensures other { other.new ≡ other.old }
        ensures same { (x y : T) → self.old.value ≡ Some x → other.old.value ≡ Some y → x ≡ y }
    {
        let copy = other.note.again();
        self.note.compare(copy);
    }

    /// The value, as it was seen.
    pub(crate) fn get(&self) -> Option<&T>
        ensures { MatchOption result (self.now.value ≡ None) (λ r. self.now.value ≡ Some r.now) }
    {
        match &self.held {
            Some(value) => Some(&**value),
            None => None,
        }
    }
}
