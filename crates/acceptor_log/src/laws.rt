//! What a crash leaves of a journal, as contracts of calls that do nothing else.

ghost use Rattle.acceptor_log.specs.Crashes.{FilesSurvive, FilesSurviveWhole, LeavesAcknowledged, LeavesEitherBehind, LeavesSameBehind};

use durable_model::Disk;

/// Where a crash from one disk to a later one leaves only journals between two lists, or of one of the two, as `any_moment`
/// of `Log`'s calls says, the disk that is opened after it over the same file holds such a journal, if the file was honest.
pub fn file_survives()
    ensures between { FilesSurvive }
    ensures whole { FilesSurviveWhole }
{}

/// What a crash leaves of a journal that goes on, between two calls: what it has acknowledged, and no more.
pub fn at_rest<D: Disk>()
    ensures { LeavesAcknowledged D.Disk }
{}

/// What a crash leaves behind a call, where a crash at any moment of it left only journals between two lists, or of one of
/// the two: such a journal. So it is after an append that failed.
pub fn behind_call<D: Disk>()
    ensures between { LeavesSameBehind D.Disk }
    ensures whole { LeavesEitherBehind D.Disk }
{}
