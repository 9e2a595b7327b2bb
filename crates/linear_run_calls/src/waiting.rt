//! The callers that wait, on the heap: a deep recursion takes memory and no stack.

ghost use Rattle.std.specs.Prelude.{◌≡◌, ◌<◌, List, [], ◌∷◌, vec_len, vec_capacity, MatchOption, OnOk};

use lang_base::NoMemory;
use std::alloc::Global;
use std::marker::Model;

/// A caller that waits: the place among those of all functions where it goes on, where its words begin, and where the result
/// goes.
#[derive(Drop)]
pub struct Waiting {
    pub place: usize,
    pub base: usize,
    pub target: u32,
}

/// The callers, the nearest first.
#[derive(Drop)]
pub struct Callers {
    waiting: Vec<Waiting>,
}

impl Model for Callers {
    ghost use Rattle.std.specs.Prelude.{List};
    ghost use Rattle.linear_run_calls.specs.declared.waiting.Waiting.{Waiting};

    ghost Value = { List Waiting };

    ghost use Rattle.std.specs.Prelude.{reverse};

    ghost view = { λ callers. reverse callers.waiting.items };
}

/// Room for one caller more, away from the calls that have it.
#[cold]
fn make_room(waiting: &mut Vec<Waiting>) -> Result<(), NoMemory>
    ensures kept { waiting.new.items ≡ waiting.old.items }
    ensures room { OnOk result (vec_len waiting.new < vec_capacity waiting.new) }
{
    Ok(waiting.reserve(1)?)
}

impl Callers {
    /// Nobody waits.
    pub fn new(alloc: Global) -> Callers
        ensures { result ≡ [] }
    {
        Callers {
            waiting: Vec::new(alloc),
        }
    }

    /// The nearest caller is this one.
    #[inline(always)]
    pub(crate) fn push(&mut self, caller: Waiting) -> Result<(), NoMemory>
        ensures { OnOk result (self.new ≡ caller ∷ self.old) }
    {
        if self.waiting.len() >= self.waiting.capacity() {
            make_room(&mut self.waiting)?;
        }
        self.waiting.push_reserved(caller);
        Ok(())
    }

    /// The nearest caller waits no more.
    #[inline(always)]
    pub(crate) fn pop(&mut self) -> Option<Waiting>
        ensures { MatchOption result
            ((self.old ≡ []) × (self.new ≡ []))
            (λ caller. self.old ≡ caller ∷ self.new) }
    {
        self.waiting.pop()
    }
}
