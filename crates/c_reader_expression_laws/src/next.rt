use c_syntax::BinaryOperator;

/// How an expression goes on with the next token.
#[derive(Clone, Copy, Debug, PartialEq, Eq)]
pub enum Next {
    /// With this operator and a right operand.
    Operator(BinaryOperator),
    /// With the `?` of a choice.
    Choice,
    /// Not at all.
    Stop,
}
