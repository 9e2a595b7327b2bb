//! Two functions are equal where their parameters, numbers of registers, entries and nodes are.

use crate::function::Function;

impl PartialEq for Function {
    ghost use Rattle.std.specs.Cmp.{partial_equiv_from_equiv};
    ghost use Rattle.rtl_language.specs.Equal.{same_function, same_laws};

    ghost eq = { same_function };

    ghost laws = { partial_equiv_from_equiv same_laws };

    fn eq(&self, other: &Function) -> bool {
        self.parameters() == other.parameters()
            && self.registers() == other.registers()
            && self.entry() == other.entry()
            && self.nodes() == other.nodes()
    }
}

impl Eq for Function {
    ghost use Rattle.rtl_language.specs.Equal.{same_laws};

    ghost laws = { same_laws };
}
