ghost use Rattle.std.specs.Prelude.{◌≡◌, length, replicate};
ghost use Rattle.x86_state.specs.Registers.{word_in, with_word};

use std::marker::Model;
use x86_syntax::{REGISTER_COUNT, Register};

/// The words in the registers.
#[derive(Clone, Copy)]
pub struct Registers {
    words: [u32; 13],
}

impl Registers {
    /// All are 0.
    pub fn new() -> Registers
        ensures { result.words ≡ replicate 13 0 }
    {
        Registers {
            words: [0; REGISTER_COUNT],
        }
    }

    pub fn word(&self, register: Register) -> u32
        ensures { result ≡ word_in register self.now.words }
    {
        self.words[register.number()]
    }

    pub fn put(&mut self, register: Register, word: u32)
        ensures { self.new.words ≡ with_word register word self.old.words }
    {
        self.words[register.number()] = word;
    }
}
