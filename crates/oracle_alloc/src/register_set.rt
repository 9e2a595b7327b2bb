use lang_base::NoMemory;
use rtl_acts::Register;
use std::alloc::Global;

/// A set of registers below a number, as bits: 64 of them a word.
#[derive(Drop)]
pub struct RegisterSet {
    words: Vec<u64>,
}

/// The word where a register's bit stands.
fn word_of(register: Register) -> usize {
    usize::from(register / 64)
}

fn bit_of(register: Register) -> u64 {
    1u64 << (register % 64)
}

impl RegisterSet {
    /// None of so many registers.
    pub fn none(alloc: Global, registers: u16) -> Result<RegisterSet, NoMemory> {
        Ok(RegisterSet {
            words: vec![in alloc; 0u64; usize::from(registers / 64) + 1]?,
        })
    }

    pub fn has(&self, register: Register) -> bool {
        match self.words.get(word_of(register)) {
            Some(word) => *word & bit_of(register) != 0,
            None => false,
        }
    }

    pub fn add(&mut self, register: Register) {
        if let Some(word) = self.words.get_mut(word_of(register)) {
            *word |= bit_of(register);
        }
    }

    pub fn remove(&mut self, register: Register) {
        if let Some(word) = self.words.get_mut(word_of(register)) {
            *word &= !bit_of(register);
        }
    }

    /// Adds the registers of another set of as many, and says whether one was new.
    pub fn join(&mut self, others: &RegisterSet) -> bool {
        let mut is_new = false;
        for (i, word) in self.words.iter_mut().enumerate() {
            let more = *word | others.word(i);
            is_new |= more != *word;
            *word = more;
        }
        is_new
    }

    /// Takes all registers out.
    pub fn clear(&mut self) {
        for word in self.words.iter_mut() {
            *word = 0;
        }
    }

    /// Whether a register is in both sets.
    pub fn meets(&self, others: &RegisterSet) -> bool {
        for (i, word) in self.words.iter().enumerate() {
            if *word & others.word(i) != 0 {
                return true;
            }
        }
        false
    }

    fn word(&self, at: usize) -> u64 {
        self.words.get(at).copied().unwrap_or(0)
    }

    /// The registers of the set, rising.
    pub fn members(&self, alloc: Global) -> Result<Vec<Register>, NoMemory> {
        let mut members = Vec::new(alloc);
        self.push_to(&mut members)?;
        Ok(members)
    }

    /// Appends the registers of the set, rising.
    pub fn push_to(&self, members: &mut Vec<Register>) -> Result<(), NoMemory> {
        let mut first: Register = 0;
        for word in &self.words {
            if *word != 0 {
                push_members(members, first, *word)?;
            }
            first = first.saturating_add(64);
        }
        Ok(())
    }
}

/// Appends the registers from this one on whose bits are set.
fn push_members(members: &mut Vec<Register>, first: Register, word: u64) -> Result<(), NoMemory> {
    let mut left = word;
    for _ in 0..word.count_ones() {
        let offset = u16::try_from(left.trailing_zeros()).unwrap_or(0);
        members.push(first.saturating_add(offset))?;
        left &= left.wrapping_sub(1);
    }
    Ok(())
}
