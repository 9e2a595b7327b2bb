//! The law of C's meaning, as the contract of a call that does nothing else.

ghost use Rattle.lang_base.specs.Behaviour.{IsRun};
ghost use Rattle.c_program.specs.Trees.{ProgramTree};
ghost use Rattle.c_program.specs.Meaning.{crun};

/// What a C program does is what a run can show: from one bound to the next the output only grows, and an
/// end or a fault stays.
pub fn c_runs_on()
    ensures { (p : ProgramTree) → IsRun (crun p) }
{}
