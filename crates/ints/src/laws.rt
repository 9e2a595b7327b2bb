//! Laws of the two tables, and of the words that they are written in. Each function does nothing:
//! its contract is the law.
ghost use Rattle.ints.specs.Laws.{MachineFollowsC, GivesWords, CodesLeadBack, CondCodesLeadBack, ReadsSigned, Divides, WorksOnBits};

/// Where C's table answers, the machine's answers the same.
pub fn machine_follows_c()
    ensures { MachineFollowsC }
{}

/// An operator gives a word at words, and nothing at another number of them than it takes.
pub fn operators_give_words()
    ensures { GivesWords }
{}

/// An operator's code leads back to it, and no other code does.
pub fn operator_codes_lead_back()
    ensures { CodesLeadBack }
{}

/// A condition's code leads back to it, and no other code does.
pub fn condition_codes_lead_back()
    ensures { CondCodesLeadBack }
{}

/// What wrapping and the signed reading of a word mean.
pub fn words_read_signed()
    ensures { ReadsSigned }
{}

/// What cutting toward zero, the remainder and rounding down mean.
pub fn quotients_divide()
    ensures { Divides }
{}

/// The operators on bits work on one bit at a time.
pub fn bits_stand_alone()
    ensures { WorksOnBits }
{}
