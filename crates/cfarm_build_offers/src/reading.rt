//! The files of a folder of offers, each read once.

ghost use Rattle.std.specs.Prelude.{◌≡◌, length, IfOk};

use crate::fault::GivenFault;
use crate::given::{Given, NodeOffers, PassOffers};
use cfarm_files::{FileFault, Files};
use cfarm_options::offer_path;
use constprop_check::ConstProp;
use cse_check::Cse;
use farm_nodes_turn_passes::Alloc;
use lang_base::{Named, NoMemory, Pass};
use linearize_check::Linearize;
use offers::Offer;
use rtl_language::Function;
use std::alloc::Global;
use std::str;

/// Where the offers of a pass stand that a node is given.
#[derive(Clone, Copy, Debug)]
struct Place<'a> {
    folder: &'a str,
    node: usize,
    pass: u8,
}

fn at(folder: &str, node: usize, pass: u8) -> Place<'_> {
    Place { folder, node, pass }
}

/// A function of the text, with its number.
#[derive(Clone, Copy)]
struct Numbered<'a> {
    number: u16,
    function: &'a Named<Function>,
}

/// The file of an offer: its path, and the number of the function whose name it has.
#[derive(Drop)]
struct FileOf {
    number: u16,
    path: String,
}

/// The offer of the file, which cannot be used.
fn faulty<P: Pass>(file: FileOf, fault: GivenFault) -> Given<P> {
    let FileOf { number, path } = file;
    Given {
        number,
        path,
        parts: None,
        fault: Some(fault),
    }
}

/// The offer that the bytes of the file spell.
fn spelled_by<P: Pass>(alloc: Global, file: FileOf, bytes: &[u8]) -> Result<Given<P>, NoMemory> {
    match Offer::<P>::parts(alloc, bytes) {
        Ok(parts) => {
            let FileOf { number, path } = file;
            Ok(Given {
                number,
                path,
                parts: Some(parts),
                fault: None,
            })
        }
        Err(fault) => match GivenFault::of(fault) {
            Some(fault) => Ok(faulty(file, fault)),
            None => Err(NoMemory),
        },
    }
}

/// The offer for the function, where there is a file of its name.
fn spelled<P: Pass, F: Files>(
    alloc: Global,
    files: &F,
    place: Place<'_>,
    of: Numbered<'_>,
) -> Result<Option<Given<P>>, NoMemory> {
    let name = name_of(of.function);
    let Ok(path) = offer_path(alloc, place.folder, place.node, name, place.pass) else {
        return Err(NoMemory);
    };
    let file = FileOf {
        number: of.number,
        path,
    };
    match files.read_if_there(&file.path) {
        Ok(Some(bytes)) => match spelled_by::<P>(alloc, file, &bytes) {
            Ok(given) => Ok(Some(given)),
            Err(fault) => Err(fault),
        },
        Ok(None) => Ok(None),
        Err(FileFault::NoMemory) => Err(NoMemory),
        Err(FileFault::Refused(_)) => Ok(Some(faulty(file, GivenFault::Device))),
    }
}

/// An offer of the first pass, which can be used where its input is the function.
fn chained(given: Given<ConstProp>, function: &Function) -> Given<ConstProp> {
    let is_chained = match &given.parts {
        Some(parts) => &parts.input == function,
        None => true,
    };
    if is_chained {
        return given;
    }
    let Given { number, path, .. } = given;
    faulty(FileOf { number, path }, GivenFault::Unchained)
}

/// An offer, which can be used where its pass accepts it.
fn accepted<P: Pass>(alloc: Global, given: Given<P>) -> Result<Given<P>, NoMemory> {
    let is_accepted = match &given.parts {
        Some(parts) => P::check(alloc, &parts.input, &parts.output, &parts.certificate),
        None => Ok(true),
    };
    match is_accepted {
        Ok(true) => Ok(given),
        Ok(false) => {
            let Given { number, path, .. } = given;
            Ok(faulty(FileOf { number, path }, GivenFault::Refused))
        }
        Err(fault) => Err(fault),
    }
}

/// Puts the offer behind the others.
fn push_given<P: Pass>(
    alloc: Global,
    all: &mut Vec<Given<P>>,
    given: Given<P>,
) -> Result<(), NoMemory> {
    match accepted::<P>(alloc, given) {
        Ok(given) => match all.push(given) {
            Ok(()) => Ok(()),
            Err(_) => Err(NoMemory),
        },
        Err(fault) => Err(fault),
    }
}

/// A function's name as text.
fn name_of(function: &Named<Function>) -> &str {
    str::from_utf8(function.name.as_slice()).unwrap_or("")
}

/// The offers of the first pass: each has to begin with its function.
fn first_given<F: Files>(
    alloc: Global,
    files: &F,
    place: Place<'_>,
    functions: &[Named<Function>],
) -> Result<PassOffers<ConstProp>, NoMemory> {
    let mut all = Vec::new(alloc);
    let mut number = 0u16;
    for function in functions {
        let of = Numbered { number, function };
        let pushed = match spelled::<ConstProp, F>(alloc, files, place, of) {
            Ok(Some(given)) => push_given(alloc, &mut all, chained(given, &function.function)),
            Ok(None) => Ok(()),
            Err(fault) => Err(fault),
        };
        match pushed {
            Ok(()) => {}
            Err(fault) => return Err(fault),
        }
        number = number.saturating_add(1);
    }
    Ok(PassOffers { given: all })
}

/// The offers of a later pass, whatever they go on from.
fn pass_given<P: Pass, F: Files>(
    alloc: Global,
    files: &F,
    place: Place<'_>,
    functions: &[Named<Function>],
) -> Result<PassOffers<P>, NoMemory> {
    let mut all = Vec::new(alloc);
    let mut number = 0u16;
    for function in functions {
        let pushed = match spelled::<P, F>(alloc, files, place, Numbered { number, function }) {
            Ok(Some(given)) => push_given(alloc, &mut all, given),
            Ok(None) => Ok(()),
            Err(fault) => Err(fault),
        };
        match pushed {
            Ok(()) => {}
            Err(fault) => return Err(fault),
        }
        number = number.saturating_add(1);
    }
    Ok(PassOffers { given: all })
}

/// What a node is given.
fn node_given<F: Files>(
    alloc: Global,
    files: &F,
    folder: &str,
    node: usize,
    functions: &[Named<Function>],
) -> Result<NodeOffers, NoMemory> {
    let constants = match first_given(alloc, files, at(folder, node, 1), functions) {
        Ok(given) => given,
        Err(fault) => return Err(fault),
    };
    let expressions = match pass_given::<Cse, F>(alloc, files, at(folder, node, 2), functions) {
        Ok(given) => given,
        Err(fault) => return Err(fault),
    };
    let allocation = match pass_given::<Alloc, F>(alloc, files, at(folder, node, 3), functions) {
        Ok(given) => given,
        Err(fault) => return Err(fault),
    };
    let order = match pass_given::<Linearize, F>(alloc, files, at(folder, node, 4), functions) {
        Ok(given) => given,
        Err(fault) => return Err(fault),
    };
    Ok(NodeOffers {
        constants,
        expressions,
        allocation,
        order,
    })
}

/// What each of so many nodes is given in the folder. Where no file of an offer is there, none is given.
pub fn read_given<F: Files>(
    alloc: Global,
    files: &F,
    folder: &str,
    nodes: usize,
    functions: &[Named<Function>],
) -> Result<Vec<NodeOffers>, NoMemory>
    ensures { IfOk result (λ made. length made.items ≡ nodes) }
{
    let mut made = Vec::new(alloc);
    for node in 0..nodes {
        match node_given(alloc, files, folder, node, functions) {
            Ok(given) => match made.push(given) {
                Ok(()) => {}
                Err(_) => return Err(NoMemory),
            },
            Err(fault) => return Err(fault),
        }
    }
    Ok(made)
}
