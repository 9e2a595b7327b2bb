ghost use Rattle.paxos_core.specs.Play.{SchedulesShowAllLearned};
ghost use Rattle.paxos_core.specs.Quorums.{LearnsFromQuorum, QuorumIsLearned};
ghost use Rattle.paxos_core.specs.Schedule.{SchedulesAreRuns, SchedulesLearnOne};
ghost use Rattle.paxos_core_late_offers.specs.Agreement.{NothingIsSettled, ReopeningsGoOn, ReopeningsLearnAsBefore, RunsChooseOne, RunsLearnOne, RunsStaySettled};
ghost use Rattle.paxos_core_late_offers.specs.OneCode.{FarmReopeningsGoOn, FarmReopeningsLinkAsBefore, RunsChain, RunsLinkOne};

use paxos_core_late_offers::promises::{one_code, one_code_again, one_value, one_value_again};

/// The theorem of agreement, over every list of steps and of calls; it does nothing.
pub fn agreement()
    // One room: whatever its messages and restarts, its nodes learn one value.
    ensures empty { NothingIsSettled }
    ensures chosen { RunsChooseOne }
    ensures learned { RunsLearnOne }

    // The calls of `Node` are such runs, and a node learns exactly what an accept quorum has voted for.
    ensures calls { SchedulesAreRuns }
    ensures nodes { SchedulesLearnOne }
    ensures shown { SchedulesShowAllLearned }
    ensures from_quorum { LearnsFromQuorum }
    ensures quorum { QuorumIsLearned }

    // What a run leaves can be opened again, and the old run goes on.
    ensures settled { RunsStaySettled }
    ensures goes_on { ReopeningsGoOn }
    ensures learned_again { ReopeningsLearnAsBefore }

    // The farm: one code for each function, made by offers that chain.
    ensures linked { RunsLinkOne }
    ensures chained { RunsChain }
    ensures farm_goes_on { FarmReopeningsGoOn }
    ensures linked_again { FarmReopeningsLinkAsBefore }
{
    one_value();
    one_value_again();
    one_code();
    one_code_again();
}
