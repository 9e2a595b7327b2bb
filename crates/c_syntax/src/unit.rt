use crate::declaration::Declaration;
use std::marker::Model;

/// What a text declares, in order, and where its last token ends. No function and no initial expression is
/// higher than 200.
#[derive(Drop)]
pub struct Unit {
    declarations: Vec<Declaration>,
    end: usize,
}

impl Model for Unit {
    ghost use Rattle.std.specs.Prelude.{map};
    ghost use Rattle.std.specs.List.{AllByRecursion};
    ghost use Rattle.c_syntax.specs.Heights.{IsLow};
    ghost use Rattle.c_syntax.specs.Units.{Contents};
    ghost use Rattle.c_syntax.specs.Views.{declaration_tree};
    ghost use Rattle.c_syntax.specs.contracts.declaration.Declaration as d;
    ghost use Rattle.std.specs.Coded.{codes};

    ghost Value = { Contents };

    ghost coded = { Prim.hlevel (codes, d.the_row.coded) };

    ghost view = { λ u. record { declarations = u.declarations.items; end = u.end } };

    ghost invariant = { λ u. AllByRecursion IsLow (map declaration_tree u.declarations.items) };
}

impl Unit {
    ghost use Rattle.std.specs.Prelude.{◌≡◌, map};
    ghost use Rattle.std.specs.List.{AllByRecursion};
    ghost use Rattle.c_syntax.specs.Heights.{IsLow};
    ghost use Rattle.c_syntax.specs.Views.{declaration_tree};

    /// The unit of these declarations, whose last token ends there.
    pub fn new(declarations: Vec<Declaration>, end: usize) -> Unit
        requires { AllByRecursion IsLow (map declaration_tree declarations.items) }
        ensures { result ≡ record { declarations = declarations.items; end = end } }
    {
        Unit { declarations, end }
    }

    /// The declarations, in the order of the text.
    pub fn declarations(&self) -> &[Declaration]
        ensures items { result.now ≡ self.now.declarations }
        ensures low { AllByRecursion IsLow (map declaration_tree result.now) }
    {
        self.declarations.as_slice()
    }

    /// The byte offset where the last token ends, 0 where there is none.
    pub fn end(&self) -> usize
        ensures { result ≡ self.now.end }
    {
        self.end
    }
}
