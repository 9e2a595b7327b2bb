//! Which tokens of a text stand behind those of each part of its tree: a part takes as many as spell it.
#![tactic(auto)]

mod behind;
mod declarations;
mod law;
mod statements;

pub use behind::{behind_expression, behind_type, next, start};
pub use declarations::{behind_declaration, body_tokens};
pub use law::{expressions_end, statements_end};
pub use statements::{
    begins_with_step, behind_condition, behind_head, behind_start, behind_statement,
    behind_statements, behind_step, lvalue_tokens, sign_tokens,
};
