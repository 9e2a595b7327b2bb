//! The law of places, as the contract of a call that does nothing else.

ghost use Rattle.c_faults_places.specs.Table.{HasPlacesOfFunctions};

/// There is a list of places for each function.
pub fn places_are_listed()
    ensures { HasPlacesOfFunctions }
{}
