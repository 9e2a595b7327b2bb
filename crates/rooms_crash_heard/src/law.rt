ghost use Rattle.rooms_crash_heard.specs.Heard.{HeardRest, NeighboursHear};

/// What holds of the seats of a room where one of them has heard of all, and all have heard of it again; it does nothing.
pub fn seats_that_heard()
    // There is a run in which their nodes rest as they were before the first of these meetings.
    ensures { HeardRest }
{}

/// What passes between neighbours that meet from the first to the last, and on the way back; it does nothing.
pub fn neighbours_hear()
    // On the way there the last hears of all, and on the way back all hear of the last.
    ensures { NeighboursHear }
{}
