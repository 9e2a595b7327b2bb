use c_checker_scopes::Row;
use c_syntax::{IntegerType, ReturnType};

/// The type of a function (C99 6.7.5.3).
#[derive(PartialEq, Eq, Drop)]
pub struct Signature {
    pub result: ReturnType,
    /// The types of its parameters.
    pub kinds: Row<IntegerType>,
}
