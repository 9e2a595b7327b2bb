use crate::instruction::Instruction;
use lang_base::Row;
use locations::Location;
use std::marker::Model;

/// A function: where its parameters lie, how many slots it has, and its code. Every part is in
/// range, and no label stands twice.
#[derive(Drop)]
pub struct Function {
    parameters: Row<Location>,
    slots: u16,
    code: Row<Instruction>,
}

impl Model for Function {
    ghost use Rattle.linear_language.specs.Function.{FunctionData, IsFunction};

    ghost Value = { FunctionData };

    ghost view = { λ f. record { parameters = f.parameters; slots = f.slots; code = f.code } };

    ghost invariant = { λ f. IsFunction (record { parameters = f.parameters; slots = f.slots; code = f.code }) };
}

impl Function {
    ghost use Rattle.std.specs.Prelude.{◌≡◌};
    ghost use Rattle.linear_language.specs.Function.{FunctionData, IsFunction};

    /// The function of these parts, which are in range.
    pub fn new(parameters: Row<Location>, slots: u16, code: Row<Instruction>) -> Function
        requires { IsFunction (record { parameters = parameters; slots = slots; code = code }) }
        ensures { result ≡ record { parameters = parameters; slots = slots; code = code } }
    {
        Function {
            parameters,
            slots,
            code,
        }
    }

    /// Where the parameters lie, in order.
    pub fn parameters(&self) -> &Row<Location>
        ensures { result.now ≡ self.now.parameters }
    {
        &self.parameters
    }

    /// How many slots the frame has.
    pub fn slots(&self) -> u16
        ensures { result ≡ self.now.slots }
    {
        self.slots
    }

    /// The instructions in order.
    pub fn code(&self) -> &Row<Instruction>
        ensures code { result.now ≡ self.now.code }
        ensures in_range { IsFunction self.now }
    {
        &self.code
    }
}
