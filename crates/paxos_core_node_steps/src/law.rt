ghost use Rattle.paxos_core_node_steps.specs.Law.{BallotsAreNext, MessagesAreSteps, OffersAreSteps, ProposalsAreOnce, ProposalsAreSteps, RestartsAreSteps, StartsAreSteps, WhatIsToldIsDone};

/// The law of a node's definitions; it does nothing.
pub fn law()
    ensures next { BallotsAreNext }
    ensures offer { OffersAreSteps }
    ensures start { StartsAreSteps }
    ensures propose { ProposalsAreSteps }
    ensures message { MessagesAreSteps }
    ensures restart { RestartsAreSteps }
    ensures told { WhatIsToldIsDone }
    ensures once { ProposalsAreOnce }
{}
