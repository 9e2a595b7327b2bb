use crate::order::is_in_order;
use crate::rules::Rules;
use lang_base::{FormError, NoMemory};
use rtl_passes_marks::Entries;
use std::marker::PhantomData;

/// The facts of a pass, as the entries of rows among so many registers.
pub(crate) struct Facts<R: Rules> {
    _of: PhantomData<R>,
}

impl<R: Rules> Entries for Facts<R> {
    ghost use Rattle.rtl_passes_filled.specs.Rules.{IsInOrder};

    type Entry = R::Fact;

    type Size = u16;

    ghost part = { R.part };

    ghost text = { R.text };

    ghost in_order = { IsInOrder R.rules };

    fn read_entry(size: u16, bytes: &mut &[u8]) -> Result<R::Fact, FormError> {
        R::read_fact(u32::from(size), bytes)
    }

    fn push_entry(out: &mut Vec<u8>, entry: &R::Fact) -> Result<(), NoMemory> {
        R::push_fact(out, entry)
    }

    fn are_in_order(size: u16, entries: &[R::Fact]) -> bool {
        is_in_order::<R>(size, entries)
    }
}
