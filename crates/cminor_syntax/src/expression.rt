use machine::Op;

/// An expression: it gives a word or nothing defined, and changes nothing.
#[derive(Drop)]
pub enum Expression {
    /// A word.
    Constant(u32),
    /// What a variable holds.
    Variable(u16),
    /// A cell of a global, by its index.
    Load(u16, Box<Expression>),
    /// An operator of one word.
    Unary(Op, Box<Expression>),
    /// An operator of two words.
    Binary(Op, Box<Expression>, Box<Expression>),
    /// The condition, the value where it is not 0, and the value where it is.
    Choice(Box<Expression>, Box<Expression>, Box<Expression>),
}
