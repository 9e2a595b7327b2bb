//! From a text and its journals to what is built.

ghost use Rattle.std.specs.Prelude.{◌≡◌, ◌≤◌, IfOk, IfErr, is_some, length};
ghost use Rattle.std.specs.Arc.{arc_value};
ghost use Rattle.c_checker_rules.specs.Checked.{program_tree};
ghost use Rattle.cminor_lowering.specs.Programs.{low};
ghost use Rattle.cminor_program_ranges.specs.Names.{HaveNames};
ghost use Rattle.rtlgen_definition.specs.Gen.{gen};
ghost use Rattle.cfarm_files.specs.Locking.{CoversFolder};
ghost use Rattle.cfarm_files.specs.Placing.{Makes};
ghost use Rattle.cfarm_options.specs.Quorums.{quorums_of};
ghost use Rattle.cfarm_build_folder.specs.Disks.{IsJournal};
ghost use Rattle.cfarm_build.specs.Farmed.{FarmCompiles, FarmCompilesNot, FarmMakes, FarmMakesNot};

use crate::building::build;
use crate::farm::Farm;
use crate::host::Host;
use cfarm_build_folder::{
    BuildError, BuildingError, JournalPaths, Optimisers, Optimising, close_disks, locked,
    old_among, open_disks, optimisers_of,
};
use cfarm_build_notes::{Standing, note_lost, note_migrated, standing_of};
use cfarm_build_offers::{NodeOffers, Outside, outside_of, read_given};
use cfarm_build_turns::Built;
use cfarm_files::Files;
use cfarm_options::{BuildOptions, Meter, Optimise};
use farm_nodes_source::{Source, prepare};
use lang_base::{Named, NoMemory};
use paxos_core_world::quorum::Quorums;
use rooms_hall::Naming;
use rtl_language::Function;
use std::alloc::Global;
use std::sync::Wait;
use std::thread::Threads;

/// What the farm's optimisers are after, as it is asked for.
fn optimising_of(optimise: Optimise) -> Optimising {
    match optimise {
        Optimise::Drawn => Optimising::Drawn,
        Optimise::Speed => Optimising::Speed,
    }
}

/// The offers that were made outside for each node, where a folder of such is said.
fn given_in<F: Files>(
    alloc: Global,
    options: BuildOptions<'_>,
    files: &F,
    functions: &[Named<Function>],
) -> Result<Vec<NodeOffers>, NoMemory> {
    let Some(folder) = options.offers else {
        return Ok(Vec::new(alloc));
    };
    let nodes = usize::from(options.nodes.count());
    read_given(alloc, files, folder, nodes, functions)
}

/// The optimisers of each node: they propose first what was given for that node.
fn oracles_of<'a>(
    alloc: Global,
    options: BuildOptions<'_>,
    nodes: usize,
    given: &'a mut [NodeOffers],
) -> Result<Vec<Outside<'a, Optimisers>>, NoMemory>
    ensures { IfOk result (λ oracles. length oracles.items ≡ nodes) }
{
    match optimisers_of(alloc, nodes, optimising_of(options.optimise)) {
        Ok(own) => outside_of(alloc, given, own),
        Err(fault) => Err(fault),
    }
}

/// Notes what a user is to be told of the folder, from what stood there before: the journals that were migrated where nothing opens, else the
/// nodes that had none.
fn note_standing<M: Meter>(
    nodes: usize,
    before: Standing,
    after: Standing,
    made: &Result<Built, BuildError>,
    meter: &mut M,
) {
    match made {
        Err(BuildError::Disks(_)) => note_migrated(nodes, before, after, meter),
        _ => note_lost(before, meter),
    }
}

/// What a farm builds of what was made ready, with the quorums that are asked for, over the journals of the folder, whose lock is had. Each disk
/// that is opened is closed again.
fn made_under<H: Naming + Send, R: Threads + Wait + Sync, F: Files, M: Meter>(
    host: &Host<'_, H, R>,
    source: Source,
    options: BuildOptions<'_>,
    quorums: Quorums,
    files: &mut F,
    lock: &F::Lock,
    meter: &mut M,
    given: &mut [NodeOffers],
) -> Result<Built, BuildingError>
    requires locked { CoversFolder (F.covers lock.now) options.folder.now }
    requires quorums { quorums ≡ quorums_of options }
    requires translated { arc_value source.translated ≡ gen (low (program_tree source.program)) }
    requires names { HaveNames (program_tree source.program) }
    requires count { length (arc_value source.translated).functions ≤ 64 }
    ensures built { IfOk result (FarmMakes ⟦<F as Farm<H>>⟧ options.entry source files) }
    ensures asked { IfOk result (λ built. is_some built.bundle ≡ is_some options.entry.bundle) }
    ensures refused { IfErr result (FarmMakesNot ⟦<F as Farm<H>>⟧ options.entry source files) }
    ensures made { Makes (F.placed files.old) (F.placed files.new) (IsJournal options.entry.folder.now) }
{
    let alloc = host.alloc;
    let Some(paths) = JournalPaths::of(alloc, options) else {
        return Err(BuildingError::Build(BuildError::NoMemory));
    };
    let disks = match open_disks(alloc, &paths, files, lock) {
        Ok(disks) => disks,
        Err(fault) => return Err(fault),
    };
    let old = old_among(&*files, &disks);
    meter.found(old, disks.len());
    let before = standing_of(old, &disks);
    let nodes = usize::from(quorums.nodes());
    let Ok(oracles) = oracles_of(alloc, options, nodes, given) else {
        close_disks(&paths, files, lock, disks);
        return Err(BuildingError::Build(BuildError::NoMemory));
    };
    let (turns, seed) = (u64::from(options.turns), options.seed);
    let bundles = options.bundle.is_some();
    let (made, back) = build(
        host, source, disks, oracles, turns, seed, quorums, bundles, meter,
    );
    let after = standing_of(old_among(&*files, &back), &back);
    note_standing(nodes, before, after, &made, meter);
    close_disks(&paths, files, lock, back);
    match made {
        Ok(built) => Ok(built),
        Err(fault) => Err(BuildingError::Build(fault)),
    }
}

/// What is built of a text by a farm with the quorums that are asked for over the journals of the folder, and the folder's lock. The text
/// comes first, then the lock, then the offers that were made outside, which are left in `given`, then the journals, then the farm.
pub(crate) fn compiled<H: Naming + Send, R: Threads + Wait + Sync, F: Files, M: Meter>(
    host: &Host<'_, H, R>,
    text: &[u8],
    options: BuildOptions<'_>,
    quorums: Quorums,
    files: &mut F,
    meter: &mut M,
    given: &mut Vec<NodeOffers>,
) -> Result<(Built, F::Lock), BuildingError>
    requires leave { F.may_lock files.now }
    requires quorums { quorums ≡ quorums_of options }
    ensures built { IfOk result (λ r. FarmCompiles ⟦<F as Farm<H>>⟧ options.entry text.now files r.0) }
    ensures asked { IfOk result (λ r. is_some r.0.bundle ≡ is_some options.entry.bundle) }
    ensures locked { IfOk result (λ r. CoversFolder (F.covers r.1) options.entry.folder.now) }
    ensures refused { IfErr result (FarmCompilesNot ⟦<F as Farm<H>>⟧ options.entry text.now files) }
{
    let alloc = host.alloc;
    let source = match prepare(alloc, text) {
        Ok(source) => source,
        Err(fault) => return Err(BuildingError::Build(BuildError::Source(fault))),
    };
    let lock = match locked(alloc, options.folder, files) {
        Ok(lock) => lock,
        Err(fault) => return Err(fault),
    };
    match given_in(
        alloc,
        options,
        &*files,
        source.translated.functions.as_slice(),
    ) {
        Ok(found) => *given = found,
        Err(NoMemory) => return Err(BuildingError::Build(BuildError::NoMemory)),
    }
    let offers = given.as_mut_slice();
    match made_under(host, source, options, quorums, files, &lock, meter, offers) {
        Ok(built) => Ok((built, lock)),
        Err(fault) => Err(fault),
    }
}
