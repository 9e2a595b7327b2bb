ghost use Rattle.std.specs.Prelude.{◌≡◌, true, false, drop, slice_index_or, slice_set, take};
ghost use Rattle.c_program.specs.Values.{cell_of};
ghost use Rattle.c_program.specs.State.{put_cell};
ghost use Rattle.c_meaning_machine.specs.Scopes.{locals_of};

use crate::cells::Cells;

/// What expressions read and plain actions change: the running function's locals and the globals.
#[derive(Drop)]
pub struct Scope {
    /// The locals of the functions that run, each behind its caller's.
    pub locals: Vec<Option<u32>>,
    /// Where the running function's locals begin.
    pub base: usize,
    pub globals: Vec<Cells>,
}

impl Scope {
    /// A local's word: none where it is indeterminate.
    #[inline(always)]
    #[tactic(auto, using(crate::proofs::Frames::get_behind))]
    pub fn local(&self, number: usize) -> Option<u32>
        ensures { result ≡ slice_index_or (locals_of self.now) number None }
    {
        match self.base.checked_add(number) {
            Some(place) if place < self.locals.len() => self.locals[place],
            _ => None,
        }
    }

    /// A local becomes a word or indeterminate.
    #[inline(always)]
    #[tactic(auto, using(std::proofs::lemmas::List::set_past, crate::proofs::Frames::set_behind))]
    pub fn set_local(&mut self, number: usize, value: Option<u32>)
        ensures base { self.new.base ≡ self.old.base }
        ensures below { take self.old.base self.new.locals.items ≡ take self.old.base self.old.locals.items }
        ensures frame { drop self.old.base self.new.locals.items ≡ slice_set (locals_of self.old) number value }
        ensures globals { self.new.globals.items ≡ self.old.globals.items }
    {
        if let Some(place) = self.base.checked_add(number) {
            if place < self.locals.len() {
                self.locals[place] = value;
            }
        }
    }

    /// A cell's word, where there is such a cell.
    #[inline(always)]
    pub fn cell(&self, global: usize, index: u32) -> Option<u32>
        ensures { result ≡ cell_of self.now.globals.items global index }
    {
        if global < self.globals.len() {
            self.globals[global].get(index)
        } else {
            None
        }
    }

    /// A cell becomes a word, where there is such a cell: else the answer is false.
    #[inline(always)]
    pub fn set_cell(&mut self, global: usize, index: u32, word: u32) -> bool
        ensures stored { result ≡ true → put_cell self.old.globals.items global index word ≡ Some self.new.globals.items }
        ensures missing { result ≡ false → put_cell self.old.globals.items global index word ≡ None }
        ensures base { self.new.base ≡ self.old.base }
        ensures locals { self.new.locals.items ≡ self.old.locals.items }
    {
        if global >= self.globals.len() {
            return false;
        }
        let cells = &mut self.globals[global];
        cells.set(index, word)
    }
}
