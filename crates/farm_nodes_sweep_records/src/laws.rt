//! What holds of records that are put down at once, as contracts of calls that do nothing else.

ghost use Rattle.farm_nodes_sweep_records.specs.PendingLaws.{BeginsWithNone, FrontsLeave, Stages, TakesFirst};

/// Steps are taken in the order of their records: each leaves what is pending behind it pending, and what was put down goes
/// on to stand for what the seats keep.
pub fn taken_in_order()
    ensures none { BeginsWithNone }
    ensures stages { Stages }
    ensures takes { TakesFirst }
{}

/// Any front of them, as a crash might leave it, leaves of each room at most one step more.
pub fn fronts_leave()
    ensures { FrontsLeave }
{}
