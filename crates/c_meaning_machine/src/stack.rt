use crate::left::Left;
use lang_base::NoMemory;
use std::alloc::Global;

/// What is left to do, the next on top.
#[derive(Drop)]
pub struct Stack<'a> {
    items: Vec<Left<'a>>,
}

impl<'a> Stack<'a> {
    ghost use Rattle.std.specs.Prelude.{◌≡◌, [], ◌∷◌, OnOk, MatchOption};
    ghost use Rattle.c_meaning_machine.specs.Stacks.{waiting};

    /// Nothing is left.
    #[tactic(auto, unfolding(crate::specs::Stacks::waiting))]
    pub fn new(alloc: Global) -> Stack<'a>
        ensures { waiting result ≡ [] }
    {
        Stack {
            items: Vec::new(alloc),
        }
    }

    #[inline(always)]
    #[tactic(auto, using(crate::proofs::Stacks::reverse_push), unfolding(crate::specs::Stacks::waiting))]
    pub fn push(&mut self, left: Left<'a>) -> Result<(), NoMemory>
        ensures { OnOk result (waiting self.new ≡ left.entry ∷ waiting self.old) }
    {
        self.items.reserve(1)?;
        self.items.push_reserved(left);
        Ok(())
    }

    #[inline(always)]
    #[tactic(auto, using(crate::proofs::Stacks::reverse_push), unfolding(crate::specs::Stacks::waiting))]
    pub fn pop(&mut self) -> Option<Left<'a>>
        ensures { MatchOption result (waiting self.old ≡ []) (λ top. waiting self.old ≡ top ∷ waiting self.new) }
    {
        self.items.pop()
    }
}
