//! The laws of the lowering, as the contract of a call that does nothing else.

ghost use Rattle.std.specs.Prelude.{◌≡◌, ◌≢◌, ℕ};
ghost use Rattle.lang_base.specs.declared.shown.Shown.TheVariants.{Wrong};
ghost use Rattle.lang_base.specs.Keeps.{Keeps};
ghost use Rattle.c_program.specs.Trees.{ProgramTree};
ghost use Rattle.c_program.specs.Meaning.{crun};
ghost use Rattle.cminor_syntax.specs.Meaning.{run};
ghost use Rattle.cminor_lowering.specs.Programs.{HasMain, low};

/// The Cminor program of a C program keeps its meaning, and the bounds of both go together.
pub fn lowered_keeps()
    ensures keeps { (p : ProgramTree) → HasMain p → Keeps (crun p) (run (low p)) }
    ensures together { (p : ProgramTree) → HasMain p → (n : ℕ) → (crun p n).shown ≢ Wrong → run (low p) n ≡ crun p n }
{}
