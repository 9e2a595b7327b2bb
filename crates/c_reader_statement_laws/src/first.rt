//! What begins with the next tokens.

/// Which production of a statement the next two tokens begin.
#[derive(Clone, Copy, Debug, PartialEq, Eq)]
pub enum First {
    Empty,
    Local,
    Block,
    Call,
    /// A name that becomes a value or is changed.
    Assign,
    /// A cell that becomes a value or is changed.
    Store,
    /// `++` or `--` before an lvalue.
    Step,
    If,
    While,
    Do,
    For,
    Break,
    Continue,
    Return,
    /// None of them.
    Other,
}
