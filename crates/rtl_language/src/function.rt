use crate::instruction::Instruction;
use lang_base::Row;
use rtl_acts::Register;
use std::marker::Model;

/// A function: the registers of its parameters, how many registers it has, the node where it begins,
/// and its nodes by number. Every part is in range.
#[derive(Drop)]
pub struct Function {
    parameters: Row<Register>,
    registers: u16,
    entry: u16,
    nodes: Row<Instruction>,
}

impl Model for Function {
    ghost use Rattle.rtl_language.specs.Function.{FunctionData, IsFunction};

    ghost Value = { FunctionData };

    ghost view = { λ f. record { parameters = f.parameters; registers = f.registers; entry = f.entry; nodes = f.nodes } };

    ghost invariant = { λ f. IsFunction (record { parameters = f.parameters; registers = f.registers; entry = f.entry; nodes = f.nodes }) };
}

impl Function {
    ghost use Rattle.std.specs.Prelude.{◌≡◌};
    ghost use Rattle.rtl_language.specs.Function.{FunctionData, IsFunction};

    /// The function of these parts, which are in range.
    pub fn new(
        parameters: Row<Register>,
        registers: u16,
        entry: u16,
        nodes: Row<Instruction>,
    ) -> Function
        requires { IsFunction (record { parameters = parameters; registers = registers; entry = entry; nodes = nodes }) }
        ensures { result ≡ record { parameters = parameters; registers = registers; entry = entry; nodes = nodes } }
    {
        Function {
            parameters,
            registers,
            entry,
            nodes,
        }
    }

    /// The registers of the parameters, in order.
    pub fn parameters(&self) -> &Row<Register>
        ensures { result.now ≡ self.now.parameters }
    {
        &self.parameters
    }

    /// How many registers the function has.
    pub fn registers(&self) -> u16
        ensures { result ≡ self.now.registers }
    {
        self.registers
    }

    /// The node where the function begins.
    pub fn entry(&self) -> u16
        ensures { result ≡ self.now.entry }
    {
        self.entry
    }

    /// The nodes by number: at least one, and at most 65,535.
    pub fn nodes(&self) -> &Row<Instruction>
        ensures nodes { result.now ≡ self.now.nodes }
        ensures in_range { IsFunction self.now }
    {
        &self.nodes
    }
}
