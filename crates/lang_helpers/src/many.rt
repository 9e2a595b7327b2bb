//! Lists of a kind: one loop reads so many of them, and one writes each.

ghost use Rattle.std.specs.Prelude.{◌≡◌, ℕ, List, [], ◌∷◌, ◌++◌, All, IfOk};
ghost use Rattle.std.specs.List.{flat_map};
ghost use Rattle.std.specs.Int.{w16, w32, to_be_bytes};
ghost use Rattle.lang_base.specs.Reading.{Reading, Reads, items_of, more, byte, number};
ghost use Rattle.lang_base.specs.Texts.{Appends};

use lang_base::{FormError, NoMemory, push_u16, push_u32, read_byte, read_u32};
use std::alloc::Global;

/// Reads one of a kind, behind those that were read before it.
pub trait ReadOne {
    /// What is read.
    type Item: Drop;

    /// What is to be read behind those before: a value and the bytes behind it, or the first fault.
    ghost part: { Self → List Self.Item → Reading Self.Item };

    /// What the reader keeps of those before.
    ghost keeps: { Self → List Self.Item → Type 0 } = { λ _ _. Unit {0} };

    /// Reads one behind those before, and goes on to read the same. Where it refuses, what it keeps is
    /// left open.
    fn read(
        &mut self,
        alloc: Global,
        before: &[Self::Item],
        bytes: &mut &[u8],
    ) -> Result<Self::Item, FormError>
        requires { keeps self.old before.now }
        ensures read { Reads (part self.old before.now bytes.old.now) result bytes.new.now }
        ensures same { part self.new ≡ part self.old }
        ensures keeps { IfOk result (λ one. keeps self.new (before.now ++ one ∷ [])) };
}

/// Reads so many of a kind, one behind the other.
pub fn read_so_many<R: ReadOne + Drop>(
    alloc: Global,
    mut reader: R,
    count: u32,
    bytes: &mut &[u8],
) -> Result<Vec<R::Item>, FormError>
    requires { R.keeps reader [] }
    ensures { Reads (more (R.part reader) [] count bytes.old.now) (items_of result) bytes.new.now }
{
    let mut all = Vec::new(alloc);
    for _ in 0..count {
        let one = reader.read(alloc, &all, bytes)?;
        all.push(one)?;
    }
    Ok(all)
}

/// Writes one of a kind.
pub trait WriteOne {
    /// What is written.
    type Item;

    /// Its bytes.
    ghost text: { Self.Item → List ℕ };

    /// What is asked of it, so that the numbers of its parts have space in their bytes.
    ghost is_short: { Self.Item → Type 0 } = { λ _. Unit {0} };

    /// Writes one at the end of `out`; where memory runs out, a beginning of it is written.
    fn push(out: &mut Vec<u8>, item: &Self::Item) -> Result<(), NoMemory>
        requires { is_short item.now }
        ensures { Appends result (text item.now) out.old.items out.new.items };
}

/// Writes each, one behind the other.
pub fn push_each<W: WriteOne>(out: &mut Vec<u8>, items: &[W::Item]) -> Result<(), NoMemory>
    requires { All W.is_short items.now }
    ensures { Appends result (flat_map W.text items.now) out.old.items out.new.items }
{
    for item in items {
        W::push(out, item)?;
    }
    Ok(())
}

/// Reads a byte.
#[derive(Drop)]
pub struct Byte;

impl ReadOne for Byte {
    type Item = u8;

    ghost part = { λ _ _. byte };

    fn read(&mut self, _alloc: Global, _before: &[u8], bytes: &mut &[u8]) -> Result<u8, FormError> {
        read_byte(bytes)
    }
}

/// A number of four bytes.
#[derive(Drop)]
pub struct Word;

impl ReadOne for Word {
    type Item = u32;

    ghost part = { λ _ _. number w32 };

    fn read(
        &mut self,
        _alloc: Global,
        _before: &[u32],
        bytes: &mut &[u8],
    ) -> Result<u32, FormError> {
        read_u32(bytes)
    }
}

impl WriteOne for Word {
    type Item = u32;

    ghost text = { to_be_bytes w32 };

    fn push(out: &mut Vec<u8>, item: &u32) -> Result<(), NoMemory> {
        push_u32(out, *item)
    }
}

/// A number of two bytes.
#[derive(Drop)]
pub struct Half;

impl WriteOne for Half {
    type Item = u16;

    ghost text = { to_be_bytes w16 };

    fn push(out: &mut Vec<u8>, item: &u16) -> Result<(), NoMemory> {
        push_u16(out, *item)
    }
}
