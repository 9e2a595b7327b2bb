//! Whether the end of a run is explained.

ghost use Rattle.std.specs.Prelude.{◌≡◌, Some, codes, IfSome, IsNone};
ghost use Rattle.clap.specs.Words.{found_of, first_of, first_value, rows_of};
ghost use Rattle.cfarm_command_line_tasks.specs.Words.{IsArgument, IsNoWord, explain_rule, explaining_word};

use cfarm_command_line_tasks::Explaining;
use clap::{Arg, ArgAction, ArgMatches};
use std::alloc::Global;

/// The option that has the end of a run explained.
const EXPLAIN: &str = "explain";

/// The option that has the end of a run explained.
pub fn explain<'a>(alloc: Global) -> Arg<'a>
    ensures { IsArgument explain_rule result }
{
    Arg::new(alloc, EXPLAIN)
        .long(EXPLAIN)
        .help("Tells where and why the program went wrong, also where no terminal is")
        .action(ArgAction::SetTrue)
}

/// To whom the end of a run is explained; `clap` finds one of the two words.
pub fn explaining_of(words: &ArgMatches<'_>) -> Option<Explaining>
    ensures some { IfSome result (λ e. first_of (codes "explain") (rows_of (found_of words.now)) ≡ Some (explaining_word e)) }
    ensures none { IsNone result → IsNoWord explaining_word (first_of (codes "explain") (rows_of (found_of words.now))) }
{
    explaining_found(words)
}

fn explaining_found(words: &ArgMatches<'_>) -> Option<Explaining>
    ensures some { IfSome result (λ e. first_value (found_of words.now) (codes "explain") ≡ Some (explaining_word e)) }
    ensures none { IsNone result → IsNoWord explaining_word (first_value (found_of words.now) (codes "explain")) }
{
    match words.get_str(EXPLAIN) {
        Some("false") => Some(Explaining::Seen),
        Some("true") => Some(Explaining::Always),
        _ => None,
    }
}
