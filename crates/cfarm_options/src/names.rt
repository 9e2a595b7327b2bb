//! The names of the files that a build has, under which nothing else is put.

ghost use Rattle.std.specs.Prelude.{◌≡◌, ◌++◌, ◌||◌, codes, option_copied};
ghost use Rattle.std.specs.Str.{bytes_eq};
ghost use Rattle.cfarm_options.specs.Names.{is_of_text, is_own_name, is_taken, takes_name};

use std::path::Path;

/// Whether a build has a file of this name in its folder, of however many nodes it is.
fn is_own_name(name: &str) -> bool
    ensures { result ≡ is_own_name name.now }
{
    match name {
        "cfarm.lock" | "linked.cfp" | "linked.cfp.new" => true,
        "node0.cf2" | "node1.cf2" | "node2.cf2" | "node3.cf2" => true,
        "node4.cf2" | "node5.cf2" | "node6.cf2" => true,
        "node0.cfj" | "node1.cfj" | "node2.cfj" | "node3.cfj" => true,
        "node4.cfj" | "node5.cfj" | "node6.cfj" => true,
        _ => false,
    }
}

fn is_name(name: &[u8], other: &[u8]) -> bool
    ensures { result ≡ bytes_eq name.now other.now }
{
    name == other
}

/// Whether the text's name is this one, or that of what is written beside a file of this name.
fn is_of_text(text: Option<&str>, name: &str) -> bool
    ensures { result ≡ is_of_text (option_copied text.entry) name.now }
{
    match text {
        Some(text) => {
            is_name(text.as_bytes(), name.as_bytes()) || is_beside(text.as_bytes(), name.as_bytes())
        }
        None => false,
    }
}

/// Whether this is the name with `.new` behind.
fn is_beside(text: &[u8], name: &[u8]) -> bool
    ensures { result ≡ bytes_eq text.now (name.now ++ codes ".new") }
{
    if text.len() < 4 {
        return false;
    }
    let (front, behind) = text.split_at(text.len() - 4);
    is_name(front, name) && is_name(behind, b".new")
}

/// Whether what is put under this name might take the place of a file of a build of this text.
fn takes_name(text: Option<&str>, name: Option<&str>) -> bool
    ensures { result ≡ takes_name (option_copied text.entry) (option_copied name.entry) }
{
    match name {
        Some(name) => is_own_name(name) || is_of_text(text, name),
        None => false,
    }
}

/// Whether what is put at this path might take the place of a file that a build has in its folder, or of the text of the other path: by the
/// name that the path ends with, in whatever folder it stands.
pub fn is_taken(text: &str, path: &str) -> bool
    ensures { result ≡ is_taken text.now path.now }
{
    takes_name(Path::new(text).file_name(), Path::new(path).file_name())
}
