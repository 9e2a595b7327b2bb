ghost use Rattle.paxos_core_crash.specs.Crash.{CrashesAreRuns, CrashesLearnAsBefore, CrashesLeaveSettled, JournalsAreRecorded};
ghost use Rattle.paxos_core_crash.specs.FarmCrash.{CrashesLinkAsBefore};

/// What holds of the kept parts that a crash of all nodes of a room leaves, at any moment; it does nothing.
pub fn crash_of_all()
    // Recorded steps that nobody took may be taken one node after another: what is left is what a run leaves.
    ensures runs { CrashesAreRuns }

    // It is settled, so a room can be opened with it.
    ensures settled { CrashesLeaveSettled }

    // Whatever is learned in the room opened again is what was learned before the crash.
    ensures learned { CrashesLearnAsBefore }

    // What a node's journal holds is such, be the node idle or caught between a record and the step that it is of.
    ensures journals { JournalsAreRecorded }
{}

/// What holds of what a crash of all nodes of a farm leaves; it does nothing.
pub fn crash_of_farm()
    // Whoever links a function in the farm opened again links the code that was linked before the crash.
    ensures { CrashesLinkAsBefore }
{}
