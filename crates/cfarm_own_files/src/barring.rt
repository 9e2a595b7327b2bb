//! The paths that a build is given and may not use.

ghost use Rattle.std.specs.Prelude.{◌≡◌, IfOk, IfSome, false, true};
ghost use Rattle.cfarm_options.specs.Paths.{linked_path};
ghost use Rattle.cfarm_own_files.specs.Barred.{AreAllFree, AreBundlesFree, AreOffersFree, Finds, FindsNone, IsBarred, IsBarredBundle, IsBarredOffers, IsBarredProgram, IsBarredText, IsBundleBarred, IsBundleFree, IsNoOffers, MayBeFree, MayBeOffers};
ghost use Rattle.cfarm_own_files.specs.Own.{IsNoOwn};

use crate::own::{beside, is_own};
use cfarm_files::Files;
use cfarm_options::{BuildOptions, is_taken, linked_path};
use std::alloc::{AllocError, Global};

/// This path, where it is barred.
fn barred_path(alloc: Global, is_barred: bool, path: &str) -> Result<Option<String>, AllocError>
    ensures barred { Finds (λ at. at ≡ path.now) result }
    ensures so { IfOk result (λ found. IfSome found (λ at. is_barred ≡ true)) }
    ensures free { FindsNone (is_barred ≡ false) result }
{
    if !is_barred {
        return Ok(None);
    }
    match path.to_string(alloc) {
        Ok(path) => Ok(Some(path)),
        Err(fault) => Err(fault),
    }
}

/// The path of the text, where it leads to a file of the build's.
fn barred_text<F: Files>(
    alloc: Global,
    files: &F,
    text: &str,
    options: BuildOptions<'_>,
) -> Result<Option<String>, AllocError>
    ensures barred { Finds (IsBarredText F.Files files.now options.entry text.now) result }
    ensures free { FindsNone (IsNoOwn F.Files files.now options.entry.folder.now text.now) result }
{
    match is_own(alloc, files, options.folder, text) {
        Ok(is_own) => barred_path(alloc, is_own, text),
        Err(fault) => Err(fault),
    }
}

/// Whether a bundle at this path takes the place of a file that is kept, or of what is no plain file.
fn is_bundle_barred<F: Files>(
    alloc: Global,
    files: &F,
    folder: &str,
    text: &str,
    path: &str,
) -> Result<bool, AllocError>
    ensures barred { IfOk result (λ is. is ≡ true → IsBundleBarred F.Files files.now folder.now text.now path.now) }
    ensures free { IfOk result (λ is. is ≡ false → IsBundleFree F.Files files.now folder.now text.now path.now) }
{
    let next = match beside(alloc, path) {
        Ok(next) => next,
        Err(fault) => return Err(fault),
    };
    if is_taken(text, path) || files.is_same(text, path) || files.is_same(text, &next) {
        return Ok(true);
    }
    if !files.is_free(path) {
        return Ok(true);
    }
    is_own(alloc, files, folder, path)
}

/// The path of the bundle, where one is asked for and is barred.
fn barred_bundle<F: Files>(
    alloc: Global,
    files: &F,
    text: &str,
    options: BuildOptions<'_>,
) -> Result<Option<String>, AllocError>
    ensures barred { Finds (IsBarredBundle F.Files files.now options.entry text.now) result }
    ensures free { FindsNone (AreBundlesFree F.Files files.now options.entry text.now) result }
{
    let Some(path) = options.bundle else {
        return Ok(None);
    };
    match is_bundle_barred(alloc, files, options.folder, text, path) {
        Ok(is_barred) => barred_path(alloc, is_barred, path),
        Err(fault) => Err(fault),
    }
}

/// Whether no offers are read of this path: it leads to nothing, or to a file of the build's.
fn is_no_offers<F: Files>(
    alloc: Global,
    files: &F,
    folder: &str,
    path: &str,
) -> Result<bool, AllocError>
    ensures barred { IfOk result (λ is. is ≡ true → IsNoOffers F.Files files.now folder.now path.now) }
    ensures free { IfOk result (λ is. is ≡ false → MayBeOffers F.Files files.now folder.now path.now) }
{
    if !files.is_found(path) {
        return Ok(true);
    }
    is_own(alloc, files, folder, path)
}

/// The path of the folder of offers, where one is given and leads to nothing, or to a file of the build's.
fn barred_offers<F: Files>(
    alloc: Global,
    files: &F,
    options: BuildOptions<'_>,
) -> Result<Option<String>, AllocError>
    ensures barred { Finds (IsBarredOffers F.Files files.now options.entry) result }
    ensures free { FindsNone (AreOffersFree F.Files files.now options.entry) result }
{
    let Some(path) = options.offers else {
        return Ok(None);
    };
    match is_no_offers(alloc, files, options.folder, path) {
        Ok(is_barred) => barred_path(alloc, is_barred, path),
        Err(fault) => Err(fault),
    }
}

/// The path of the program, where something else than a plain file is there.
fn barred_program<F: Files>(
    alloc: Global,
    files: &F,
    options: BuildOptions<'_>,
) -> Result<Option<String>, AllocError>
    ensures barred { Finds (IsBarredProgram F.Files files.now options.entry) result }
    ensures free { FindsNone (MayBeFree F.Files files.now (linked_path options.entry.folder.now)) result }
{
    match linked_path(alloc, options.folder) {
        Ok(path) => {
            if files.is_free(&path) {
                Ok(None)
            } else {
                Ok(Some(path))
            }
        }
        Err(fault) => Err(fault),
    }
}

/// The first of the paths of the text, the bundle, the offers and the program that a build may not use; none where it may use all of them. Nothing
/// is made.
pub fn barred<F: Files>(
    alloc: Global,
    files: &F,
    text: &str,
    options: BuildOptions<'_>,
) -> Result<Option<String>, AllocError>
    ensures barred { Finds (IsBarred F.Files files.now options.entry text.now) result }
    ensures free { FindsNone (AreAllFree F.Files files.now options.entry text.now) result }
{
    match barred_text(alloc, files, text, options) {
        Ok(None) => {}
        found => return found,
    }
    match barred_bundle(alloc, files, text, options) {
        Ok(None) => {}
        found => return found,
    }
    match barred_offers(alloc, files, options) {
        Ok(None) => {}
        found => return found,
    }
    barred_program(alloc, files, options)
}
