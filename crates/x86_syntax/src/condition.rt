/// What is asked of the words that were compared last, the first with the second.
#[derive(Clone, Copy, Debug, PartialEq, Eq)]
pub enum Condition {
    /// `e`
    Equal,
    /// `ne`
    NotEqual,
    /// `l`: less, the words read as signed.
    Less,
    /// `le`
    LessOrEqual,
    /// `b`: below, the words read as unsigned.
    Below,
    /// `be`
    BelowOrEqual,
    /// `ae`
    AboveOrEqual,
}
