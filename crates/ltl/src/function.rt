use crate::block::Block;
use lang_base::Row;
use machine::Location;
use std::marker::Model;

/// A function: where its parameters lie, how many slots it has, the node where it begins, and its
/// blocks by node number. Every part is in range.
#[derive(Drop)]
pub struct Function {
    parameters: Row<Location>,
    slots: u16,
    entry: u16,
    blocks: Row<Block>,
}

impl Model for Function {
    ghost use Rattle.ltl.specs.Function.{FunctionData, IsFunction};

    ghost Value = { FunctionData };

    ghost view = { λ f. record { parameters = f.parameters; slots = f.slots; entry = f.entry; blocks = f.blocks } };

    ghost invariant = { λ f. IsFunction (record { parameters = f.parameters; slots = f.slots; entry = f.entry; blocks = f.blocks }) };
}

impl Function {
    ghost use Rattle.std.specs.Prelude.{◌≡◌, ◌<◌, length};
    ghost use Rattle.ltl.specs.Function.{FunctionData, IsFunction};

    /// The function of these parts, which are in range.
    pub fn new(parameters: Row<Location>, slots: u16, entry: u16, blocks: Row<Block>) -> Function
        requires { IsFunction (record { parameters = parameters; slots = slots; entry = entry; blocks = blocks }) }
        ensures { result ≡ record { parameters = parameters; slots = slots; entry = entry; blocks = blocks } }
    {
        Function {
            parameters,
            slots,
            entry,
            blocks,
        }
    }

    /// Where the parameters lie, in order.
    pub fn parameters(&self) -> &Row<Location>
        ensures { result.now ≡ self.now.parameters }
    {
        &self.parameters
    }

    /// How many slots the frame has.
    pub fn slots(&self) -> u16
        ensures { result ≡ self.now.slots }
    {
        self.slots
    }

    /// The node where the function begins.
    pub fn entry(&self) -> u16
        ensures { result ≡ self.now.entry }
    {
        self.entry
    }

    /// The blocks by node number: at least one, and at most 65,535.
    pub fn blocks(&self) -> &Row<Block>
        ensures blocks { result.now ≡ self.now.blocks }
        ensures in_range { IsFunction self.now }
    {
        &self.blocks
    }
}
