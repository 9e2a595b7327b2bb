ghost use Rattle.std.specs.Prelude.{◌≡◌, ◌<◌, length, slice_index_or, MatchOption, None, Some};
ghost use Rattle.std.specs.Arc.{arc_value};
ghost use Rattle.once_cell.specs.Once.{cell_name};
ghost use Rattle.rooms_cells.specs.Seen.{IsPutAt, Read, names_of, unseen, value_at};

use crate::sight::{Put, Sight};
use once_cell::race::OnceBox;
use std::alloc::Global;
use std::marker::Model;
use std::sync::Arc;

/// The cells of a room. A room of fewer nodes leaves the last ones empty. A clause sees it as the names of the cells.
#[derive(Drop)]
pub struct Shelf<T: Drop> {
    cells: [OnceBox<Arc<T>>; 7],
}

impl<T: Drop> Model for Shelf<T> {
    ghost use Rattle.std.specs.Prelude.{◌≡◌, ℕ, List, length, map};
    ghost use Rattle.once_cell.specs.Once.{cell_name};

    ghost Value = { List ℕ };

    ghost view = { λ s. map (λ c. cell_name c) s.cells };

    ghost invariant = { λ s. length s.cells ≡ 7 };
}

impl<T: Drop> Shelf<T> {
    /// Seven empty cells. They take no memory until a value is put.
    pub fn new(alloc: Global) -> Self
        ensures { length result ≡ 7 }
    {
        Shelf {
            cells: [
                OnceBox::new(alloc),
                OnceBox::new(alloc),
                OnceBox::new(alloc),
                OnceBox::new(alloc),
                OnceBox::new(alloc),
                OnceBox::new(alloc),
                OnceBox::new(alloc),
            ],
        }
    }

    /// Cell `j`.
    fn cell(&self, j: usize) -> &OnceBox<Arc<T>>
        requires { j < 7 }
        ensures name { cell_name result.now ≡ slice_index_or self.now j 0 }
        ensures size { length self.now ≡ 7 }
    {
        &self.cells[j]
    }
}

/// What one seat has seen of the cells of its room's shelf.
#[derive(Drop)]
pub struct Sights<T: Drop> {
    shelf: Arc<Shelf<T>>,
    sights: [Sight<T>; 7],
}

impl<T: Drop> Model for Sights<T> {
    ghost use Rattle.std.specs.Prelude.{List};
    ghost use Rattle.std.specs.Arc.{arc_value};
    ghost use Rattle.rooms_cells.specs.Seen.{SightOf, IsOnShelf};

    ghost Value = { List (SightOf T) };

    ghost view = { λ s. s.sights };

    ghost invariant = { λ s. IsOnShelf (arc_value s.shelf) s.sights };
}

impl<T: Drop> Sights<T> {
    /// Nothing is seen yet.
    pub fn of(shelf: Arc<Shelf<T>>) -> Self
        ensures { result ≡ unseen (arc_value shelf) }
    {
        let sights = [
            Sight::of(shelf.cell(0)),
            Sight::of(shelf.cell(1)),
            Sight::of(shelf.cell(2)),
            Sight::of(shelf.cell(3)),
            Sight::of(shelf.cell(4)),
            Sight::of(shelf.cell(5)),
            Sight::of(shelf.cell(6)),
        ];
        Sights { shelf, sights }
    }

    /// Reads cell `j`. What was seen stays.
    pub fn look(&mut self, j: usize)
        requires { j < 7 }
        ensures read { Read j self.old self.new }
        ensures cells { names_of self.new ≡ names_of self.old }
    {
        let sight = &mut self.sights[j];
        sight.look(self.shelf.cell(j));
    }

    /// Puts the value into cell `j`, if the cell takes it.
    pub fn put(&mut self, alloc: Global, j: usize, value: Arc<T>) -> Put<Arc<T>>
        requires { j < 7 }
        ensures put { IsPutAt result value (arc_value value) j self.old self.new }
        ensures cells { names_of self.new ≡ names_of self.old }
        ensures size { length self.old ≡ 7 }
    {
        let sight = &mut self.sights[j];
        sight.put(alloc, self.shelf.cell(j), value)
    }

    /// What two seats have seen in cell `j` of one shelf is equal. No shelf has a cell from 7 on.
    pub fn compare(&mut self, other: &mut Sights<T>, j: usize)
        requires { names_of self.old ≡ names_of other.old }
        ensures mine { self.new ≡ self.old }
        ensures other { other.new ≡ other.old }
        ensures same { (x y : T) → value_at self.old j ≡ Some x → value_at other.old j ≡ Some y → x ≡ y }
    {
        if j < 7 {
            let sight = &mut self.sights[j];
            sight.compare(&mut other.sights[j]);
        }
    }

    /// The value of cell `j`, as it was seen.
    pub fn get(&self, j: usize) -> Option<&T>
        requires { j < 7 }
        ensures { MatchOption result (value_at self.now j ≡ None) (λ r. value_at self.now j ≡ Some r.now) }
    {
        self.sights[j].get()
    }
}
