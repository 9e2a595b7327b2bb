//! What a shown path is worth, as contracts of calls that do nothing else.

ghost use Rattle.std.specs.Prelude.{◌≡◌};
ghost use Rattle.cfarm_shown_paths.specs.Shown.{IsPlain, shown_path};

/// A path without control characters is shown as it is.
pub fn plain_stays(path: &str)
    ensures { IsPlain path.now → shown_path path.now ≡ path.now }
{
    let _path = path;
}

/// What is shown of a path has no control character.
pub fn shown_is_plain(path: &str)
    ensures { IsPlain (shown_path path.now) }
{
    let _path = path;
}
