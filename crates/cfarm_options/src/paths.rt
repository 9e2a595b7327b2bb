//! The files of a build in its folder.

ghost use Rattle.std.specs.Prelude.{◌≡◌, IfOk};
ghost use Rattle.std.specs.String.{string_bytes};
ghost use Rattle.cfarm_options.specs.Paths.{journal_path, linked_path, offer_path, old_journal_path};

use std::alloc::{AllocError, Global};
use std::path::Path;

/// The journal of the node of this number.
pub fn journal_path(alloc: Global, folder: &str, node: usize) -> Result<String, AllocError>
    ensures { IfOk result (λ path. string_bytes path ≡ journal_path folder.now node) }
{
    let name = format!(in alloc; "node{node}.cf2")?;
    let path = Path::new(folder).join(alloc, name.as_str())?;
    Ok(path.into_string())
}

/// The journal of the first version of the node of this number.
pub fn old_journal_path(alloc: Global, folder: &str, node: usize) -> Result<String, AllocError>
    ensures { IfOk result (λ path. string_bytes path ≡ old_journal_path folder.now node) }
{
    let name = format!(in alloc; "node{node}.cfj")?;
    let path = Path::new(folder).join(alloc, name.as_str())?;
    Ok(path.into_string())
}

/// The linked program.
pub fn linked_path(alloc: Global, folder: &str) -> Result<String, AllocError>
    ensures { IfOk result (λ path. string_bytes path ≡ linked_path folder.now) }
{
    let path = Path::new(folder).join(alloc, "linked.cfp")?;
    Ok(path.into_string())
}

/// The offer of a pass, 1 to 4, that was made outside for the node of this number and for the function of this name, in a folder of such.
pub fn offer_path(
    alloc: Global,
    folder: &str,
    node: usize,
    name: &str,
    pass: u8,
) -> Result<String, AllocError>
    ensures { IfOk result (λ path. string_bytes path ≡ offer_path folder.now node name.now pass) }
{
    let name = format!(in alloc; "node{node}/{name}.pass{pass}")?;
    let path = Path::new(folder).join(alloc, name.as_str())?;
    Ok(path.into_string())
}
