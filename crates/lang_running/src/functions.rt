//! The functions of a program, by number.

ghost use Rattle.std.specs.Prelude.{MatchOption};
ghost use Rattle.lang_running.specs.Functions.{HasNone, IsFunctionOf};

use lang_base::Named;

/// The function of this number, if it is there.
pub fn function_at<F>(functions: &[Named<F>], number: usize) -> Option<&F>
    ensures { MatchOption result (HasNone functions.now number) (λ found. IsFunctionOf functions.now number found.now) }
{
    match functions.get(number) {
        None => None,
        Some(named) => Some(&named.function),
    }
}
