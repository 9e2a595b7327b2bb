//! The nodes of RTL that the expressions and statements of Cminor are translated to, pushed to a graph in the making.
#![tactic(auto)]

mod blocks;
mod endings;
mod expressions;
mod graph;
mod operands;
mod plain;
mod statement_temporaries;
mod statements;
mod temporaries;

pub use endings::ends_with_value;
pub use expressions::{add_act, add_branch, add_expression, add_operand, operand_register};
pub use graph::Graph;
pub use operands::{add_operands, operand_registers};
pub use statement_temporaries::statement_needs;
pub use statements::add_statement;
pub use temporaries::{needs, operands_need};
