ghost use Rattle.machine.specs.AfterCalls.{TemporariesAreLost, RegistersAreKept, SlotsAreKept, ResultIsSet, OtherLocationsStay, GlobalsGoOn, OutputGoesOn, MovesComeLast};

/// A caller goes on with the words that it had, but for r0 to r3, which are lost, and with the globals
/// and the output of the function that it called. Then the result is set, in r0 to r3 too, and the moves
/// that still were to be done come last.
pub fn callers_go_on()
    ensures lost { TemporariesAreLost }
    ensures kept { RegistersAreKept }
    ensures slots { SlotsAreKept }
    ensures result { ResultIsSet }
    ensures others { OtherLocationsStay }
    ensures globals { GlobalsGoOn }
    ensures output { OutputGoesOn }
    ensures moves { MovesComeLast }
{}
