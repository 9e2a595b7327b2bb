ghost use Rattle.machine.specs.AtEntry.{ParametersAreSet, NoOtherIsDefined, GlobalsAreTheCallers, OutputIsTheCallers};

/// A called function begins with its parameters, each with the argument of its place in the list,
/// defined or not, and with no other word: whatever its caller's words are. Globals and output go on.
pub fn callees_begin()
    ensures parameters { ParametersAreSet }
    ensures others { NoOtherIsDefined }
    ensures globals { GlobalsAreTheCallers }
    ensures output { OutputIsTheCallers }
{}
