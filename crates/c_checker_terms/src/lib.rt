//! The checker of expressions and calls of C: whether they are well formed, and the terms that they stand
//! for (C99 6.5).
#![tactic(auto)]

mod calls;
mod changes;
mod constants;
mod expressions;
mod functions;
mod names;
mod parts;
mod typed;
mod ways;

pub use calls::{check_call, check_value, is_putchar};
pub use changes::{change_operator, changed};
pub use constants::{constant_value, has_name};
pub use expressions::check_expression;
pub use functions::Functions;
pub use names::{array, is_main, is_new, is_short, meaning_of, variable};
pub use typed::Typed;
