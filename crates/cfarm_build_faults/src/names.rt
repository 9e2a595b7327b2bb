//! The names that a user is shown beside the numbers of faults.

ghost use Rattle.std.specs.Prelude.{◌≡◌};
ghost use Rattle.cfarm_build_faults.specs.Names.{fault_name, journal_name, link_name};

use acceptor_log_form::LogError;
use farm_nodes::LinkError;
use farm_nodes_turn_offer::Fault;

pub(crate) fn journal_name(fault: LogError) -> &'static str
    ensures { result.now ≡ journal_name fault }
{
    match fault {
        LogError::NoMemory => "NoMemory",
        LogError::Device => "Device",
        LogError::NotAJournal => "NotAJournal",
        LogError::BadRecord => "BadRecord",
        LogError::OtherSource => "OtherSource",
        LogError::Stopped => "Stopped",
        LogError::Full => "Full",
    }
}

pub(crate) fn fault_name(fault: Fault) -> &'static str
    ensures { result.now ≡ fault_name fault }
{
    match fault {
        Fault::NoMemory => "NoMemory",
        Fault::Journal(told) => journal_name(told),
        Fault::TooManyRegisters => "TooManyRegisters",
        Fault::OtherRecords => "OtherRecords",
        Fault::CellRefused => "CellRefused",
    }
}

pub(crate) fn link_name(fault: LinkError) -> &'static str
    ensures { result.now ≡ link_name fault }
{
    match fault {
        LinkError::NoMemory => "NoMemory",
        LinkError::TooManyNodes(_) => "TooManyNodes",
        LinkError::Missing(_) => "Missing",
        LinkError::Unchained(_) => "Unchained",
        LinkError::Names => "Names",
    }
}
