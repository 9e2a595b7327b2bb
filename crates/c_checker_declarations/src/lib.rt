//! The checkers of global variables and arrays (C99 6.7.8 and 6.9.2), and of functions and prototypes (C99 5.1.2.2.1,
//! 6.7.5.3 and 6.9.1): whether they are well formed, and what they stand for.
#![tactic(auto)]

mod declaring;
mod functions;
mod global;
mod initial;
mod names;
mod parameters;
mod signatures;

pub use c_checker_bodies::Here;
pub use c_checker_terms::Functions;
pub use declaring::declare_function;
pub use functions::{check_function, check_prototype, function_with};
pub use global::check_global;
pub use names::check_name;
pub use parameters::{check_open_parameters, check_parameters};
pub use signatures::{prototype_signature, signature_of};
