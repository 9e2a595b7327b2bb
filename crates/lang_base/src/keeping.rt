//! The laws of keeping a meaning, as contracts of calls that do nothing else.

ghost use Rattle.lang_base.specs.Behaviour.{Behaviour};
ghost use Rattle.lang_base.specs.Keeps.{Keeps};
ghost use Rattle.lang_base.specs.Soundness.{KeepsAll};

use crate::language::Language;
use crate::pass::Pass;

/// What keeps the meaning of what keeps a meaning keeps it too.
pub fn keeps_composes()
    ensures { (a b c : Behaviour) → Keeps a b → Keeps b c → Keeps a c }
{}

/// What a pass accepts for a whole program keeps its meaning.
pub fn keeps_all<P: Pass>()
    ensures { KeepsAll P.In.fits P.Out.fits P.accepts P.In.run P.Out.run }
{}
