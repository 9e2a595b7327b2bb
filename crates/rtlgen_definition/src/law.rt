//! The law of the translation, as the contract of a call that does nothing else.

ghost use Rattle.lang_base.specs.Keeps.{Keeps};
ghost use Rattle.lang_base.specs.declared.program.Program.{Program};
ghost use Rattle.lang_base.specs.Soundness.{AllFit};
ghost use Rattle.cminor_syntax.specs.Trees.{FunctionTree};
ghost use Rattle.cminor_syntax.specs.Fits.{IsFunction};
ghost use Rattle.cminor_syntax.specs.Meaning as C;
ghost use Rattle.rtl_language.specs.Meaning as R;
ghost use Rattle.rtlgen_definition.specs.Gen.{gen};

/// The RTL program of a Cminor program whose functions are in range keeps its meaning.
pub fn generated_keeps()
    ensures { (p : Program FunctionTree) → AllFit IsFunction p → Keeps (C.run p) (R.run (gen p)) }
{}
