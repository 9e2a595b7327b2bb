//! The callers that wait, on the heap: a deep recursion takes memory and no stack.

ghost use Rattle.std.specs.Prelude.{◌≡◌, List, [], ◌∷◌, MatchOption, OnOk};

use lang_base::NoMemory;
use std::alloc::Global;
use std::marker::Model;

/// A caller that waits: its function's number, where its words begin, the place where it goes on, and where the
/// result goes. The number and the place are written one by one, and a load of both at once would wait for the writes:
/// so they do not stand side by side, as they do in a run.
#[derive(Drop)]
pub struct Caller<P: Drop, T: Drop> {
    pub function: usize,
    pub base: usize,
    pub place: P,
    pub target: T,
}

/// The callers, the nearest first.
#[derive(Drop)]
pub(crate) struct Callers<P: Drop, T: Drop> {
    waiting: Vec<Caller<P, T>>,
}

impl<P: Drop, T: Drop> Model for Callers<P, T> {
    ghost use Rattle.std.specs.Prelude.{List};
    ghost use Rattle.lang_running.specs.declared.callers.Caller.{Caller};

    ghost Value = { List (Caller P T) };

    ghost use Rattle.std.specs.Prelude.{reverse};

    ghost view = { λ callers. reverse callers.waiting.items };
}

impl<P: Drop, T: Drop> Callers<P, T> {
    /// Nobody waits.
    pub(crate) fn new(alloc: Global) -> Callers<P, T>
        ensures { result ≡ [] }
    {
        Callers {
            waiting: Vec::new(alloc),
        }
    }

    /// The nearest caller is this one.
    pub(crate) fn push(&mut self, caller: Caller<P, T>) -> Result<(), NoMemory>
        ensures { OnOk result (self.new ≡ caller ∷ self.old) }
    {
        self.waiting.push(caller)?;
        Ok(())
    }

    /// The nearest caller waits no more.
    pub(crate) fn pop(&mut self) -> Option<Caller<P, T>>
        ensures { MatchOption result
            ((self.old ≡ []) × (self.new ≡ []))
            (λ caller. self.old ≡ caller ∷ self.new) }
    {
        self.waiting.pop()
    }
}
