ghost use Rattle.paxos_core_theorem.specs.Agreement.{NothingIsSettled, ReopeningsGoOn, ReopeningsLearnAsBefore, RunsChooseOne, RunsLearnOne, RunsStaySettled};
ghost use Rattle.paxos_core_theorem.specs.OneCode.{FarmReopeningsGoOn, FarmReopeningsLinkAsBefore, RunsChain, RunsLinkOne};

/// One room: whatever a run from settled kept parts chooses or learns is one value.
pub fn one_value()
    ensures empty { NothingIsSettled }
    ensures chosen { RunsChooseOne }
    ensures learned { RunsLearnOne }
{}

/// One room that is opened again from what a run left: it is settled, goes on as that run would, and
/// learns what was learned.
pub fn one_value_again()
    ensures settled { RunsStaySettled }
    ensures goes_on { ReopeningsGoOn }
    ensures learned { ReopeningsLearnAsBefore }
{}

/// The farm: whoever links a function links the same code, and the learned offers chain.
pub fn one_code()
    ensures linked { RunsLinkOne }
    ensures chained { RunsChain }
{}

/// The farm that is opened again from what a run left: it goes on as that run would, and links what
/// was linked.
pub fn one_code_again()
    ensures goes_on { FarmReopeningsGoOn }
    ensures linked { FarmReopeningsLinkAsBefore }
{}
