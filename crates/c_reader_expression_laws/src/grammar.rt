//! What is read and the grammar, as contracts of calls that do nothing else.

ghost use Rattle.c_reader_expression_laws.specs.Exactness.{ReadIsSpelled, SpelledIsRead, FaultIsDue, OneTree};

/// What is read is spelled by the tokens before the rest, and is low.
pub fn read_is_spelled()
    ensures { ReadIsSpelled }
{}

/// What is spelled, is low and ends there is read.
pub fn spelled_is_read()
    ensures { SpelledIsRead }
{}

/// Where there is a fault of syntax no expression is spelled, however high.
pub fn fault_is_due()
    ensures { FaultIsDue }
{}

/// No two trees are spelled by the same tokens.
pub fn one_tree()
    ensures { OneTree }
{}
