//! The law of compound assignments, as the contract of a call that does nothing else.

ghost use Rattle.c_checker_rules.specs.Updates.{UpdatesAsAssigned};

/// What `t op= e` does to a cell is what `t = t op (e)` would do, though its index is evaluated once
/// (C99 6.5.16.2).
pub fn updates_as_assigned()
    ensures { UpdatesAsAssigned }
{}
