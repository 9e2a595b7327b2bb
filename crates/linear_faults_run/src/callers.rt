//! The callers that wait, on the heap: a deep recursion takes memory and no stack.

use crate::words::Words;
use lang_base::NoMemory;
use locations::Location;
use std::alloc::Global;
use std::marker::Model;

/// A caller that waits: its function's number, the place behind its call, its words, and where the result goes.
#[derive(Drop)]
pub struct Caller {
    pub function: usize,
    pub place: usize,
    pub words: Words,
    pub target: Option<Location>,
}

/// The callers, the nearest first.
#[derive(Drop)]
pub struct Callers {
    waiting: Vec<Caller>,
}

impl Model for Callers {
    ghost use Rattle.std.specs.Prelude.{List};
    ghost use Rattle.linear_faults_run.specs.declared.callers.Caller.{Caller};

    ghost Value = { List Caller };

    ghost use Rattle.std.specs.Prelude.{reverse};

    ghost view = { λ callers. reverse callers.waiting.items };
}

impl Callers {
    ghost use Rattle.std.specs.Prelude.{◌≡◌, [], ◌∷◌, MatchOption, OnOk};

    /// Nobody waits.
    pub fn new(alloc: Global) -> Callers
        ensures { result ≡ [] }
    {
        Callers {
            waiting: Vec::new(alloc),
        }
    }

    /// The nearest caller is this one.
    pub fn push(&mut self, caller: Caller) -> Result<(), NoMemory>
        ensures { OnOk result (self.new ≡ caller ∷ self.old) }
    {
        self.waiting.push(caller)?;
        Ok(())
    }

    /// The nearest caller waits no more.
    pub fn pop(&mut self) -> Option<Caller>
        ensures { MatchOption result
            ((self.old ≡ []) × (self.new ≡ []))
            (λ caller. self.old ≡ caller ∷ self.new) }
    {
        self.waiting.pop()
    }
}
