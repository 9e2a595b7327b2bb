ghost use Rattle.std.specs.Prelude.{◌≤◌};
ghost use Rattle.cfarm_program_looks.specs.Judging.{Accepted, Judged};
ghost use Rattle.cfarm_program_status.specs.Reading.{Says};
ghost use Rattle.cfarm_program_status.specs.Trace.{shown};

use cfarm_files::Files;
use cfarm_judge::{JudgeLine, judge};
use cfarm_output::{ErrorLines, Paced};
use cfarm_program_status::{tell, tell_unread};
use std::alloc::Global;
use std::io::Write;

/// Of the text and the offer.
#[tactic(auto, using(crate::proofs::JudgeStatuses::in_table))]
fn judge_bytes<W: Write, E: ErrorLines>(
    alloc: Global,
    text: &[u8],
    name: &str,
    path: &str,
    offer: &[u8],
    out: &mut Paced<W>,
    err: &mut E,
) -> u8
    ensures does { Says W.contents E.contents (Accepted name.now path.now text.now offer.now)
        (shown result out err) }
    ensures table { result ≤ 7 }
{
    match judge(alloc, text, name.as_bytes(), offer, out) {
        Ok(()) => 0,
        Err(fault) => {
            let status = fault.status();
            tell(err, JudgeLine { fault, name, path }, status)
        }
    }
}

/// `judge`: reads the offer, and says whether its pass accepts it for the function of this name of the text.
pub fn judge_offer<F: Files, W: Write, E: ErrorLines>(
    alloc: Global,
    files: &F,
    text: &[u8],
    name: &str,
    path: &str,
    out: &mut Paced<W>,
    err: &mut E,
) -> u8
    ensures does { Says W.contents E.contents (Judged (F.known files.now) name.now path.now text.now)
        (shown result out err) }
    ensures table { result ≤ 7 }
{
    match files.read(path) {
        Ok(offer) => judge_bytes(alloc, text, name, path, &offer, out, err),
        Err(fault) => tell_unread(err, path, fault),
    }
}
