//! What is known of the names of an accepted text, as the contract of a call that does nothing else.

ghost use Rattle.std.specs.Prelude.{ℕ, List};
ghost use Rattle.c_syntax.specs.declared.token.Token.{Token};
ghost use Rattle.c_syntax.specs.Trees.{UnitTree};
ghost use Rattle.c_syntax.specs.Declarations.{IsUnit};
ghost use Rattle.c_lexer.specs.Texts.{HasTokens};
ghost use Rattle.c_checker_rules.specs.Units.{program_of};
ghost use Rattle.cminor_program_ranges.specs.Names.{HaveNames};

/// The functions of the program that a text stands for have C names.
pub fn accepted_has_names()
    ensures { (text : List ℕ) (tokens : List Token) (u : UnitTree) → HasTokens text tokens → IsUnit u tokens →
        HaveNames (program_of u) }
{}
