//! Words of 32 bits: the operators and conditions of the compiler's languages, with two tables of
//! what an operator gives. C's table goes wrong where C leaves a result open; the machine's wraps.
//! Each call is proved to be its table, which is written in exact whole numbers.
#![tactic(auto)]

mod c_table;
mod cond_table;
mod conditions;
pub mod laws;
mod machine_table;
mod operators;
mod wrong;

pub use c_table::eval_c;
pub use cond_table::eval_cond;
pub use conditions::Cond;
pub use machine_table::eval_m;
pub use operators::Op;
pub use wrong::CWrong;
