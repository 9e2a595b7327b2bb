//! The laws of tokens, as the contracts of calls that do nothing else.

ghost use Rattle.c_faults_tokens.specs.Spelled.{ExpressionsEnd, StatementsEnd};

/// An expression takes exactly the tokens that spell it.
pub fn expressions_end()
    ensures { ExpressionsEnd }
{}

/// Statements take exactly the tokens that spell them.
pub fn statements_end()
    ensures { StatementsEnd }
{}
