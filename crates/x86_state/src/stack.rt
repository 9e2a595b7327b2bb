ghost use Rattle.std.specs.Prelude.{◌≡◌, [], ◌∷◌, length, OnOk};
ghost use Rattle.x86_state.specs.Cells.{word_at, kept, shrunk, IsTaken, Becomes};

use crate::cell::Cell;
use lang_base::NoMemory;
use std::alloc::Global;
use std::marker::Model;

/// The stack. A contract sees its cells, the top first.
#[derive(Drop)]
pub struct Stack {
    /// The top comes last.
    cells: Vec<Cell>,
}

impl Model for Stack {
    ghost use Rattle.std.specs.Prelude.{List, reverse};
    ghost use Rattle.x86_state.specs.declared.cell.Cell.{Cell};

    ghost Value = { List Cell };

    ghost view = { λ stack. reverse stack.cells.items };
}

impl Stack {
    pub fn new(alloc: Global) -> Stack
        ensures { result ≡ [] }
    {
        Stack {
            cells: Vec::new(alloc),
        }
    }

    /// How many cells there are.
    pub fn len(&self) -> usize
        ensures { result ≡ length self.now }
    {
        self.cells.len()
    }

    pub fn push(&mut self, cell: Cell) -> Result<(), NoMemory>
        ensures { OnOk result (self.new ≡ cell ∷ self.old) }
    {
        self.cells.push(cell)?;
        Ok(())
    }

    pub fn pop(&mut self) -> Option<Cell>
        ensures { IsTaken result self.old self.new }
    {
        self.cells.pop()
    }

    /// The word in this cell, if it holds one.
    pub fn word(&self, cell: u16) -> Option<u32>
        ensures { result ≡ word_at self.now cell }
    {
        let count = self.cells.len();
        let distance = usize::from(cell);
        if distance >= count {
            return None;
        }
        match self.cells[count - 1 - distance] {
            Cell::Word(word) => Some(word),
            Cell::Back(_) => None,
        }
    }

    /// Writes a word over the one in this cell, if it holds one.
    pub fn keep(&mut self, cell: u16, word: u32) -> bool
        ensures { Becomes (kept cell word self.old) result self.new }
    {
        let there = self.word(cell).is_some();
        if there {
            let place = self.cells.len() - 1 - usize::from(cell);
            self.cells[place] = Cell::Word(word);
        }
        there
    }

    /// Takes so many words off the top, if they are there.
    pub fn shrink(&mut self, count: u16) -> bool
        ensures { Becomes (shrunk count self.old) result self.new }
    {
        let mut left = count;
        while left > 0 {
            match self.pop() {
                Some(Cell::Word(_)) => left -= 1,
                _ => return false,
            }
        }
        true
    }
}
