use crate::instruction::Instruction;
use lang_base::Row;

/// A function: how many parameters it takes, and its code.
#[derive(Drop)]
pub struct Function {
    pub parameters: u8,
    pub code: Row<Instruction>,
}
