//! The trees of Cminor, the first language of the pipeline: expressions without effects, and statements.
//! Its specs are the plain trees that these stand for, what is in range, and what whole programs do.
#![tactic(auto)]

mod expression;
mod statement;

pub use expression::Expression;
pub use statement::Statement;
