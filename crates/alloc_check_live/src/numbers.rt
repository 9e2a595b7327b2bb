ghost use Rattle.std.specs.Prelude.{◌≡◌};
ghost use Rattle.alloc_check_live.specs.Lists.{registers_at};
ghost use Rattle.alloc_check_live.specs.Walks.{ends_with};

use lang_base::NoMemory;
use std::alloc::Global;
use std::marker::Model;

/// The numbers at a place.
pub(crate) fn numbers_at(lists: &[Numbers], place: u16) -> &[u16]
    ensures { result.now ≡ registers_at lists.now place }
{
    match lists.get(usize::from(place)) {
        Some(numbers) => numbers.as_slice(),
        None => &[],
    }
}

/// Whether the number is the last.
pub(crate) fn ends_with(numbers: &[u16], number: u16) -> bool
    ensures { result ≡ ends_with numbers.now number }
{
    match numbers.last() {
        Some(last) => *last == number,
        None => false,
    }
}

/// Numbers of registers or of nodes, in the order in which they were added.
#[derive(Drop)]
pub struct Numbers {
    items: Vec<u16>,
}

impl Model for Numbers {
    ghost use Rattle.std.specs.Prelude.{List, ℕ};

    ghost Value = { List ℕ };

    ghost view = { λ numbers. numbers.items.items };
}

impl Numbers {
    ghost use Rattle.std.specs.Prelude.{◌≡◌, [], ◌∷◌, ◌++◌, OnOk};

    pub(crate) fn new(alloc: Global) -> Numbers
        ensures { result ≡ [] }
    {
        Numbers {
            items: Vec::new(alloc),
        }
    }

    /// The numbers in order.
    pub fn as_slice(&self) -> &[u16]
        ensures { result.now ≡ self.now }
    {
        self.items.as_slice()
    }

    pub(crate) fn push(&mut self, number: u16) -> Result<(), NoMemory>
        ensures { OnOk result (self.new ≡ self.old ++ number ∷ []) }
    {
        self.items.push(number)?;
        Ok(())
    }
}
