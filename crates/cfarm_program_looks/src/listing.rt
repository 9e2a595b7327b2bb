ghost use Rattle.std.specs.Prelude.{◌≤◌};
ghost use Rattle.cfarm_program_looks.specs.Listing.{Listed};
ghost use Rattle.cfarm_program_status.specs.Reading.{Says};
ghost use Rattle.cfarm_program_status.specs.Trace.{shown};

use cfarm_log::list_journal;
use cfarm_output::{ErrorLines, Paced};
use cfarm_program_status::tell;
use std::alloc::Global;
use std::io::Write;

/// `log`: prints the records of a journal, and tells its first fault.
#[tactic(auto, using(crate::proofs::ListStatuses::in_table))]
pub fn list_records<W: Write, E: ErrorLines>(
    alloc: Global,
    bytes: &[u8],
    out: &mut Paced<W>,
    err: &mut E,
) -> u8
    ensures does { Says W.contents E.contents (Listed bytes.now) (shown result out err) }
    ensures table { result ≤ 7 }
{
    match list_journal(alloc, bytes, out) {
        Ok(()) => 0,
        Err(fault) => tell(err, fault, fault.status()),
    }
}
