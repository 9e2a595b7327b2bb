ghost use Rattle.std.specs.Prelude.{◌≡◌};
ghost use Rattle.std.specs.List.{list_any};
ghost use Rattle.std.specs.Str.{bytes_eq};

use lang_base::Named;

/// Whether one of the functions has this name. Each is looked at: a program has at most 64.
pub fn is_taken<F>(functions: &[Named<F>], name: &[u8]) -> bool
    ensures { result ≡ list_any (λ f. bytes_eq f.name name.now) functions.now }
{
    functions
        .iter()
        .any(|function| function.name.as_slice() == name)
}
