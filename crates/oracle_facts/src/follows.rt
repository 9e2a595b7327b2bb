ghost use Rattle.oracle_facts.specs.Ranges.{MayBecome};

use rtl_language::Instruction;
use rtl_passes_facts::Rules;

/// Which facts are followed along the edges of a function, and what they allow.
pub trait Follows: Drop {
    /// The pass that the facts are for.
    type Of: Rules;

    /// Whether the fact holds on behind the instruction.
    fn is_kept(instruction: &Instruction, fact: &<Self::Of as Rules>::Fact) -> bool;

    /// The fact that is known behind the instruction where these hold before it, if there is one that is worth to be
    /// kept; none that is kept has its place.
    fn made(
        &self,
        instruction: &Instruction,
        facts: &[<Self::Of as Rules>::Fact],
    ) -> Option<<Self::Of as Rules>::Fact>;

    /// What the facts allow the instruction to be made, among so many registers.
    fn allowed(
        registers: u16,
        instruction: &Instruction,
        facts: &[<Self::Of as Rules>::Fact],
    ) -> Option<Instruction>
        ensures { MayBecome registers instruction.now result };
}

/// A fact of the pass that is followed.
pub type FactOf<F> = <<F as Follows>::Of as Rules>::Fact;
