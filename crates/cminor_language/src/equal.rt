//! Two functions are equal where their parameters, variables and bodies are.

use crate::function::Function;
use crate::same::same_statement;

impl PartialEq for Function {
    ghost use Rattle.std.specs.Cmp.{partial_equiv_from_equiv};
    ghost use Rattle.cminor_language.specs.Same.{same_function, same_laws};

    ghost eq = { same_function };

    ghost laws = { partial_equiv_from_equiv same_laws };

    fn eq(&self, other: &Function) -> bool {
        self.parameters() == other.parameters()
            && self.variables() == other.variables()
            && same_statement(self.body(), other.body())
    }
}

impl Eq for Function {
    ghost use Rattle.cminor_language.specs.Same.{same_laws};

    ghost laws = { same_laws };
}
