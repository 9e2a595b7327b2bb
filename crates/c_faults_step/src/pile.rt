use crate::item::Item;
use c_faults::Site;
use lang_base::NoMemory;
use std::alloc::Global;

/// What is left to do, the next on top.
#[derive(Drop)]
pub struct Pile<'a> {
    items: Vec<Item<'a>>,
}

impl<'a> Pile<'a> {
    ghost use Rattle.std.specs.Prelude.{◌≡◌, [], ◌∷◌, OnOk, IfOk, MatchOption};
    ghost use Rattle.c_faults_step.specs.Piles.{pending, IsEmptied};
    ghost use Rattle.c_faults_step.specs.Ahead.{callers_of};

    /// Nothing is left.
    #[tactic(auto, unfolding(crate::specs::Piles::pending))]
    pub fn new(alloc: Global) -> Pile<'a>
        ensures { pending result ≡ [] }
    {
        Pile {
            items: Vec::new(alloc),
        }
    }

    #[tactic(auto, using(c_meaning_machine::proofs::Stacks::reverse_push), unfolding(crate::specs::Piles::pending))]
    pub fn push(&mut self, item: Item<'a>) -> Result<(), NoMemory>
        ensures { OnOk result (pending self.new ≡ item.entry ∷ pending self.old) }
    {
        self.items.reserve(1)?;
        self.items.push_reserved(item);
        Ok(())
    }

    #[tactic(auto, using(c_meaning_machine::proofs::Stacks::reverse_push), unfolding(crate::specs::Piles::pending))]
    pub fn pop(&mut self) -> Option<Item<'a>>
        ensures { MatchOption result (IsEmptied self.old self.new) (λ top. pending self.old ≡ top ∷ pending self.new) }
    {
        self.items.pop()
    }

    /// The calls that are under way, the innermost first. Nothing is left to do then.
    pub fn callers(&mut self, alloc: Global) -> Result<Vec<Site>, NoMemory>
        ensures { IfOk result (λ sites. sites.items ≡ callers_of (pending self.old)) }
    {
        let mut sites = Vec::new(alloc);
        while let Some(item) = self.pop() {
            if let Item::Back(caller) = item {
                let function = caller.running.function;
                let place = caller.place;
                sites.push(Site { function, place })?;
            }
        }
        Ok(sites)
    }
}
