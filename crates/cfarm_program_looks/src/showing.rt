ghost use Rattle.std.specs.Prelude.{◌≤◌};
ghost use Rattle.cfarm_program_looks.specs.Showing.{Texted};
ghost use Rattle.cfarm_program_status.specs.Reading.{Says};
ghost use Rattle.cfarm_program_status.specs.Trace.{shown};

use cfarm_output::{ErrorLines, Paced};
use cfarm_program_status::tell;
use std::alloc::Global;
use std::io::Write;
use text_files::show;

/// `show`: prints the text of the program that the bytes are, or tells why there is none.
#[tactic(auto, using(crate::proofs::ShowStatuses::in_table))]
pub fn show_text<W: Write, E: ErrorLines>(
    alloc: Global,
    bytes: &[u8],
    out: &mut Paced<W>,
    err: &mut E,
) -> u8
    ensures does { Says W.contents E.contents (Texted bytes.now) (shown result out err) }
    ensures table { result ≤ 7 }
{
    match show(alloc, bytes, out) {
        Ok(()) => 0,
        Err(fault) => tell(err, fault, fault.status()),
    }
}
