use std::marker::Model;

/// The cells of a global.
#[derive(Drop)]
pub struct Cells {
    words: Vec<u32>,
}

impl Model for Cells {
    ghost use Rattle.std.specs.Prelude.{ℕ, List};

    ghost Value = { List ℕ };

    ghost view = { λ cells. cells.words.items };
}

impl Cells {
    ghost use Rattle.std.specs.Prelude.{◌≡◌, slice_get, true, false};
    ghost use Rattle.c_program.specs.State.{put_in};

    /// The cells that hold these words.
    pub fn from_vec(words: Vec<u32>) -> Cells
        ensures { result ≡ words.items }
    {
        Cells { words }
    }

    /// The cell's word, where there is such a cell.
    #[inline(always)]
    pub fn get(&self, index: u32) -> Option<u32>
        ensures { result ≡ slice_get self.now index }
    {
        self.words.get(index as usize).copied()
    }

    /// The cell becomes the word, where there is such a cell: else the answer is false.
    #[inline(always)]
    pub fn set(&mut self, index: u32, word: u32) -> bool
        ensures stored { result ≡ true → put_in index word self.old ≡ Some self.new }
        ensures missing { result ≡ false → put_in index word self.old ≡ None }
    {
        let place = index as usize;
        if place >= self.words.len() {
            return false;
        }
        self.words[place] = word;
        true
    }
}
