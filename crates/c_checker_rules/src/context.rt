use c_syntax::ReturnType;

/// Where a statement stands (C99 6.8).
#[derive(Clone, Copy, Debug, PartialEq, Eq)]
pub struct Context {
    /// How deep its scope is: 0 is the file's, 1 that of a function's outermost block.
    pub depth: u32,
    /// Whether a loop stands round it.
    pub in_loop: bool,
    /// What its function gives back.
    pub result: ReturnType,
}
