//! That the rules' parts say what they are to say, each as the contract of a call that does nothing
//! else.

ghost use Rattle.alloc_check_rules.specs.Laws.{OriginsHold, DemandsSuffice, CallsKeep, ActsAgree, TestsAgree, EntriesHold, OrderIsOfBytes};

/// What a location holds behind moves, the location that is found by going back through them held
/// before.
pub fn origins_hold()
    ensures { OriginsHold }
{}

/// Where an instruction and its body define what is said, an equation holds behind them if what it
/// demands held before.
pub fn demands_suffice()
    ensures { DemandsSuffice }
{}

/// What is demanded over a call, still holds when the caller goes on and has lost r0 to r3.
pub fn calls_keep()
    ensures { CallsKeep }
{}

/// Where the words that are used are found, an act that stands for another does what that does.
pub fn acts_agree()
    ensures { ActsAgree }
{}

/// Where the words that are used are found, a test that stands for another has its answer.
pub fn tests_agree()
    ensures { TestsAgree }
{}

/// An equation that may stand at the entry holds wherever the function is called.
pub fn entries_hold()
    ensures { EntriesHold }
{}

/// The order of a list is that of its equations' written bytes.
pub fn order_is_of_bytes()
    ensures { OrderIsOfBytes }
{}
