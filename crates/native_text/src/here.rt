use lang_base::Named;
use std::marker::Model;
use x86_syntax::Function;

/// Where an instruction stands: the program's functions, and the number of its own.
#[derive(Drop)]
pub struct Here<'a> {
    pub functions: &'a [Named<Function>],
    pub number: usize,
}

impl<'a> Model for Here<'a> {
    ghost use Rattle.native_text.specs.Operands.{Here};

    ghost Value = { Here };

    ghost view = { λ h. record { functions = h.functions.now; number = h.number } };
}
