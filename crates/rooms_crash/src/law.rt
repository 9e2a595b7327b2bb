ghost use Rattle.rooms_crash.specs.Rest.{LearnsAgain, OpenedRest, RestLeaves};
ghost use Rattle.rooms_crash.specs.Calls.{CallsKeepRun};
ghost use Rattle.rooms_crash.specs.Held.{HeldIsRecorded};
ghost use Rattle.rooms_crash.specs.Meetings.{MeetingsJoin};

/// What the journals of the nodes of a room hold, all of which rest in one run of it; it does nothing.
pub fn seats_at_rest()
    // It is what a crash of all nodes leaves: what a run of the room leaves, so it is settled.
    ensures left { RestLeaves }

    // What is learned in the room opened again is what was learned before.
    ensures learned { LearnsAgain }

    // As a room opens all its nodes rest, in the run without steps.
    ensures opened { OpenedRest }

    // What a node keeps, with its offer or with a step that it would take if it were asked, is what it may have recorded.
    ensures held { HeldIsRecorded }
{}

/// What holds of the seats of a room each of which has met one of them, and has met it again; it does nothing.
pub fn seats_that_met()
    // There is a run in which their nodes rest as they were before the first of these meetings.
    ensures { MeetingsJoin }
{}

/// What the calls of a seat leave of the run that it has seen; it does nothing.
pub fn seats_of_runs()
    // A seat holds what stands in its run, and whoever has a ballot under way has offered: as a room opens, and after each call.
    ensures { CallsKeepRun }
{}
