//! The whole command.

ghost use Rattle.std.specs.Prelude.{◌≡◌, OnOk, IfErr};
ghost use Rattle.cfarm_options.specs.Quorums.{quorums_of};
ghost use Rattle.cfarm_build.specs.Farmed.{FarmBuilds, FarmBuildsNot};

use crate::compiling::compiled;
use crate::farm::Farm;
use crate::host::Host;
use cfarm_build_folder::{BuildingError, put_built};
use cfarm_build_offers::tell_ignored;
use cfarm_build_turns::Built;
use cfarm_files::Files;
use cfarm_options::{BuildOptions, Meter};
use paxos_core_world::quorum::Quorums;
use rooms_hall::Naming;
use std::io::Write;
use std::sync::Wait;
use std::thread::Threads;

/// Builds a C text in the folder by a farm with the quorums that are asked for. The folder's lock is taken once, behind the text's acceptance,
/// and held to the end: nobody reads or puts a file there without it. Each disk that is opened is closed when the farm has built, or has not.
/// Then the bundle is put in its file, where one is asked for, then the linked program in its own, and then the report is printed on one line
/// and flushed. What is shown while the farm runs is taken away before, and what was ignored of offers that were made outside is told.
pub fn build_text<H: Naming + Send, R: Threads + Wait + Sync, F: Files, M: Meter, W: Write>(
    host: &Host<'_, H, R>,
    text: &[u8],
    options: BuildOptions<'_>,
    quorums: Quorums,
    files: &mut F,
    meter: &mut M,
    out: &mut W,
) -> Result<(), BuildingError>
    requires leave { F.may_lock files.now }
    requires quorums { quorums ≡ quorums_of options }

    // The last file that is put holds the text of a program that keeps the meaning of the C program. Where a bundle is asked for it is put
    // before, and nothing else is: `verify` says yes of the text and these two. The report is printed. The pairs of disks of the nodes that
    // agreed on it were opened, each once, and closed, each with its node's journal. Nothing else was done with disks.
    ensures built { OnOk result (FarmBuilds ⟦<F as Farm<H>>⟧ options.entry W.contents text.now files out) }

    // What is refused prints nothing, and a refused text makes no file. Where a file is refused the old one stands there or the new one, whole:
    // the bundle's comes first, and behind it the program's. The output is the last that can be refused. Each pair of disks that was opened
    // was closed: behind the opening of the farm with its node's journal, before it as it was, or as the opening left it.
    ensures refused { IfErr result (FarmBuildsNot ⟦<F as Farm<H>>⟧ options.entry W.contents text.now files out) }
{
    let mut given = Vec::new(host.alloc);
    let made = compiled(host, text, options, quorums, files, meter, &mut given);
    meter.clear();
    tell_ignored(meter, &given);
    let (built, lock) = match made {
        Ok(made) => made,
        Err(fault) => return Err(fault),
    };
    let Built {
        program,
        bundle,
        report,
    } = built;
    put_built(
        host.alloc, options, files, &lock, program, bundle, report, out,
    )
}
