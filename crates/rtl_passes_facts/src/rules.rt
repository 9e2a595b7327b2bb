ghost use Rattle.std.specs.Prelude.{◌≡◌, ◌↔◌, ℕ, ◌+◌, ◌<◌, ◌≤◌, ◌^◌, Bool, List, Option, All, Contains, IsTrue};
ghost use Rattle.std.specs.List.{AllByRecursion, filter};
ghost use Rattle.lang_base.specs.Reading.{Reading, IsRead};
ghost use Rattle.lang_base.specs.Texts.{Appends};
ghost use Rattle.lang_base.proofs.Forms.{IsForm};
ghost use Rattle.rtl_passes_marks.specs.Instruction.{Instruction};
ghost use Rattle.rtl_passes_marks.specs.Edges.{edges_of};
ghost use Rattle.rtl_passes_marks.specs.Ranked.{RiseFrom};
ghost use Rattle.rtl_passes_facts.specs.Edges.{nodes_of};
ghost use Rattle.rtl_passes_filled.specs.Known.{IsMadeOrKept};
ghost use Rattle.rtl_passes_filled.specs.Rules.{RulesOf};

use crate::edges::Edges;
use lang_base::{FormError, NoMemory};
use rtl_passes_marks::Instruction;

/// The rules of a pass from RTL to RTL that goes by facts of each node.
pub trait Rules {
    /// What is known of a node.
    type Fact: Copy + Drop;

    /// What an instruction does to what is known.
    type Change: Copy;

    /// Which facts and which output are accepted.
    ghost rules: { RulesOf Self.Fact };

    /// How a fact is read, among so many registers.
    ghost part: { ℕ → Reading Self.Fact };

    /// The bytes of a fact.
    ghost text: { Self.Fact → List ℕ };

    /// What the instruction does where these are known before it.
    ghost change_of: { Instruction → List Self.Fact → Self.Change };

    /// The fact that the change makes, if it makes one.
    ghost makes: { Self.Change → Option Self.Fact };

    /// Whether the fact holds on over the change.
    ghost keeps: { Self.Change → Self.Fact → Bool };

    /// The place of the fact among all.
    fn place(fact: &Self::Fact) -> u64
        ensures value { result ≡ rules.rank fact.now }
        ensures small { result + 1 < 2 ^ 64 };

    /// Whether the two are one.
    fn is_one(first: &Self::Fact, second: &Self::Fact) -> bool
        ensures { IsTrue result ↔ (first.now ≡ second.now) };

    /// Whether the fact can be there, among so many registers.
    fn is_fit(registers: u16, fact: &Self::Fact) -> bool
        ensures { IsTrue result ↔ rules.Fits registers fact.now };

    /// Reads a fact among so many registers, and goes on behind it.
    fn read_fact(registers: u32, bytes: &mut &[u8]) -> Result<Self::Fact, FormError>
        ensures { IsRead (part registers bytes.old.now) result bytes.new.now };

    /// Writes the fact at the end of `out`.
    fn push_fact(out: &mut Vec<u8>, fact: &Self::Fact) -> Result<(), NoMemory>
        ensures { Appends result (text fact.now) out.old.items out.new.items };

    /// Where the instruction can go on.
    fn edges(instruction: &Instruction, facts: &[Self::Fact]) -> Edges
        ensures { nodes_of result ≡ rules.edges instruction.now facts.now };

    /// What the instruction does to what is known.
    fn change_by(instruction: &Instruction, facts: &[Self::Fact]) -> Self::Change
        ensures { result ≡ change_of instruction.now facts.now };

    /// The fact that the change makes, if it makes one.
    fn made(change: Self::Change) -> Option<Self::Fact>
        ensures { result ≡ makes change };

    /// Whether the fact holds on over the change.
    fn is_kept(change: Self::Change, fact: &Self::Fact) -> bool
        ensures { result ≡ keeps change fact.now };

    /// Keeps those of the facts, which are in order, that hold on over the change.
    fn keep(facts: &mut Vec<Self::Fact>, change: Self::Change)
        requires { RiseFrom rules.rank 0 facts.old.items }
        ensures { facts.new.items ≡ filter (keeps change) facts.old.items };

    /// Whether the facts allow the input to be made the output.
    fn is_allowed(facts: &[Self::Fact], input: &Instruction, output: &Instruction) -> bool
        requires { RiseFrom rules.rank 0 facts.now }
        ensures { IsTrue result ↔ rules.Becomes facts.now input.now output.now };

    /// Lists of facts that can be there are in order exactly where their places rise.
    ghost ranked: { (registers : ℕ) → registers ≤ 2 ^ 16 → (facts : List Self.Fact) → AllByRecursion (rules.Fits registers) facts → rules.Rise facts ↔ RiseFrom rules.rank 0 facts };

    /// Among facts in order, those are known behind an instruction that it makes, or that are known before it and kept.
    ghost known: { (i : Instruction) (before : List Self.Fact) (fact : Self.Fact) → RiseFrom rules.rank 0 before → rules.IsKnown i before fact ↔ IsMadeOrKept (rules.made i before) (rules.keeps i) before fact };

    /// A change makes and keeps what the instruction does.
    ghost changes: { (i : Instruction) (before : List Self.Fact) → (makes (change_of i before) ≡ rules.made i before) × (keeps (change_of i before) ≡ rules.keeps i) };

    /// An instruction goes on along its edges alone.
    ghost along: { (i : Instruction) (facts : List Self.Fact) → All (Contains (edges_of i)) (rules.edges i facts) };

    /// What is read of a fact is spelled so, and what is spelled so is read.
    ghost form: { (registers : ℕ) → registers ≤ 2 ^ 16 → IsForm (part registers) text (rules.Fits registers) };
}
