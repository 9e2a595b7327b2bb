//! What the program is told on its command line.

ghost use Rattle.std.specs.Prelude.{◌≡◌, Some, map, codes, string_bytes, IfOk, IfErr, IfSome, IsNone};
ghost use Rattle.clap.specs.Words.{FailsBy, fault_of, first_value, found_of, rows_of};
ghost use Rattle.clap.specs.Words.{subcommand_rows_of};
ghost use Rattle.cfarm_command_line_tasks.specs.declared.task.Task.{Task};
ghost use Rattle.cfarm_command_line_tasks.specs.Words.{Answers, AreRefusedRightly, AsksFor, AsksNothing, AsksNothingBy};
ghost use Rattle.cfarm_command_line_tasks.specs.Words.{IsAskedBy, IsRefusedRightly, IsTask, IsWrong};
ghost use Rattle.cfarm_command_line_tasks.specs.Words.{IsCommand, farm, statuses_app, top_app};
ghost use Rattle.cfarm_command_line.specs.Told.{IsTold};

use crate::build_words::{build, options_of};
use crate::fsck_words::{fsck, fsck_options_of};
use crate::interpret_words::{depth_of, interpret};
use crate::native_words::{native, native_options_of};
use cfarm_command_line_others::{
    FILE, check, emit, emit_seed_of, emitted_of, exec, expected_of, explaining_of, format_of,
    judge, limit_of, list, offer_of, paths_of, settle, show, showing_of, sim, verify, with_command,
};
use cfarm_command_line_tasks::{Asked, Bounds, Choices, Task};
use clap::error::ErrorKind;
use clap::{ArgMatches, Command};
use std::alloc::{AllocError, Global};

/// What the program is called, in its second line the logic that its proofs are of (`rt version`).
const VERSION: &str = "1.0.0\nlogic dac8208d650f15bf";

/// What the statuses and the numbers of refusals mean.
const STATUSES: &str =
    "The status with which the program ends, and what it then tells on standard error:

  0  done; after a run `ended R`
  1  the file is refused: `refused NUMBER Name at OFFSET` for a text, `refused NUMBER Name` for
     bytes, `refused 240 TooManyNodes in NAME` for a function that is too large; of a bundle or an
     offer also in which file or function, in which pass and at which node
  2  the command line, in words; `quorums N Q1 Q2`, which need not meet; `prefix PREFIX`, which is
     no C name; `file PATH`; `schedule LINE`
  3  undecided: `undecided`, for want of turns; the same build again goes on from its journals
  4  a journal: `journal NUMBER Name node I` or `room R` (from 0: of each function its four passes,
     `NAME pass K` of fsck); `link NUMBER Name in FUNCTION`; the output could not be written:
     `write 701`, or standard error could not, and then nothing is told
  5  the program that was run went wrong: `wrong`; with --expect, it did not end with R
  6  the bound was reached: `running`
  7  no memory, or no thread could be made: `memory`

Numbers, by what is refused:

  101 Short         102 BadTag        103 NotCanonical  104 TooLarge                        bytes
  201 BadByte       202 OpenComment   203 LiteralRange  204 BadChar                         tokens
  210 Syntax        211 TooDeep                                                             grammar
  220 Undeclared    221 Redeclared    222 WrongArity    223 VoidValue     224 NoMain        names
  225 BadMain       226 NotConstant   227 NoBody        228 Limit         229 StrayBreak    and
  230 ArrayUse                                                                              types
  240 TooManyNodes                                                                          size
  301 Refused       an offer that its pass does not accept
  401 Device        402 NotAJournal   403 BadRecord     404 OtherSource   405 Stopped       journals
  406 Full          510 Unsettled     521 OtherRecords  522 CellRefused
  601 Missing       602 Unchained     603 Names         604 OtherProgram  605 OtherText     links
";

/// The program, before its commands.
fn bare<'a>(alloc: Global) -> Command<'a>
    ensures { IsCommand top_app result }
{
    Command::new(alloc, "cfarm")
        .about(
            "A farm of compiler nodes in one process: untrusted optimisers propose, proved validators decide,\nand the nodes agree.",
        )
        .version(VERSION)
        .subcommand_required(true)
        .arg_required_else_help(true)
}

/// The commands, with their help. Bounds of runs are said so, and options offer these choices.
fn command<'a>(
    alloc: Global,
    bounds: Bounds,
    choices: Choices<'a>,
) -> Result<Command<'a>, AllocError>
    ensures { IfOk result (IsCommand (farm bounds choices.entry)) }
{
    let checking = with_command(Ok(bare(alloc)), check(alloc, choices));
    let interpreting = with_command(checking, interpret(alloc, bounds, choices));
    let building = with_command(interpreting, build(alloc, choices));
    let executing = with_command(building, exec(alloc, bounds, choices));
    let settling = with_command(executing, settle(alloc));
    let playing = with_command(settling, sim(alloc));
    let showing = with_command(playing, show(alloc));
    let listing = with_command(showing, list(alloc));
    let looking = with_command(listing, fsck(alloc, choices));
    let verifying = with_command(looking, verify(alloc));
    let emitting = with_command(verifying, emit(alloc, choices));
    let judging = with_command(emitting, judge(alloc));
    let translating = with_command(judging, native(alloc));
    with_command(translating, statuses(alloc))
}

/// What `help statuses` shows. Alone it is a mistake, and shows the same.
fn statuses<'a>(alloc: Global) -> Result<Command<'a>, AllocError>
    ensures { IfOk result (IsCommand statuses_app) }
{
    Ok(
        Command::new(alloc, "statuses")
            .about("What the statuses and the numbers of refusals mean (`cfarm help statuses`)")
            .arg_required_else_help(true)
            .override_help(STATUSES),
    )
}

/// What is asked for by what was found in the words of a command of this name; none where there is no such command, or not all that it
/// needs.
fn task_of<'a>(name: &str, words: &ArgMatches<'a>) -> Option<Task<'a>>
    ensures some { IfSome result (IsTask name.now (rows_of (found_of words.now))) }
    ensures none { IsNone result → (task : Task) → IsTask name.now (rows_of (found_of words.now)) task → ⊥ }
{
    match name {
        "check" => match format_of(words) {
            Some(format) => Some(Task::Check(format)),
            None => None,
        },
        "interpret" => match explaining_of(words) {
            Some(explaining) => Some(Task::Interpret(depth_of(words), explaining)),
            None => None,
        },
        "build" => match options_of(words) {
            Some(options) => Some(Task::Build(options)),
            None => None,
        },
        "exec" => match explaining_of(words) {
            Some(explaining) => Some(Task::Exec(limit_of(words), expected_of(words), explaining)),
            None => None,
        },
        "settle" => Some(Task::Settle),
        "sim" => match showing_of(words) {
            Some(showing) => Some(Task::Simulate(showing)),
            None => None,
        },
        "show" => Some(Task::Show),
        "log" => Some(Task::List),
        "fsck" => match fsck_options_of(words) {
            Some(options) => Some(Task::Fsck(options)),
            None => None,
        },
        "verify" => match paths_of(words) {
            Some(paths) => Some(Task::Verify(paths)),
            None => None,
        },
        "emit" => match emitted_of(words) {
            Some(emitted) => Some(Task::Emit(emitted, emit_seed_of(words))),
            None => None,
        },
        "judge" => match offer_of(words) {
            Some(offer) => Some(Task::Judge(offer)),
            None => None,
        },
        "native" => Some(Task::Native(native_options_of(words))),
        _ => None,
    }
}

/// What is asked for by what was found of the command of this name; none where there is no such command or no file.
fn asked_in<'a>(name: &str, words: &ArgMatches<'a>) -> Option<Asked<'a>>
    ensures task { IfSome result (λ asked. IsTask name.now (rows_of (found_of words.now)) asked.task) }
    ensures path { IfSome result (λ asked. first_value (found_of words.now) (codes "FILE") ≡ Some asked.path.now) }
    ensures none { IsNone result → AsksNothingBy (Some (name.now, rows_of (found_of words.now))) }
{
    let Some(path) = words.get_str(FILE) else {
        return None;
    };
    let Some(task) = task_of(name, words) else {
        return None;
    };
    Some(Asked { task, path })
}

/// What is asked for by what was found; none where there is no command or no file, which `clap` refuses.
fn asked_of<'a>(matches: &ArgMatches<'a>) -> Option<Asked<'a>>
    ensures some { IfSome result (λ asked. IsAskedBy (subcommand_rows_of matches.now) asked.task asked.path.now) }
    ensures none { IsNone result → AsksNothingBy (subcommand_rows_of matches.now) }
{
    match matches.subcommand() {
        Some(found) => asked_in(found.0, found.1),
        None => None,
    }
}

/// What the words ask for, where bounds of runs are said so. Options offer these choices.
fn asked_with<'a>(
    alloc: Global,
    words: &'a [String],
    bounds: Bounds,
    choices: Choices<'a>,
) -> Result<Option<Asked<'a>>, clap::Error>
    ensures asks { IfOk result (λ asked. IfSome asked (AsksFor bounds choices.entry (map string_bytes words.entry.now))) }
    ensures none { IfOk result (λ asked. IsNone asked → AsksNothing bounds choices.entry (map string_bytes words.entry.now)) }
    ensures right { FailsBy (fault_of (farm bounds choices.entry) (map string_bytes words.entry.now)) result }
    ensures refused { IfErr result (λ fault. IsRefusedRightly bounds choices.entry (map string_bytes words.entry.now) fault) }
{
    let command = command(alloc, bounds, choices)?;
    let matches = command.try_get_matches_from(words)?;
    Ok(asked_of(&matches))
}

/// Which of two answers is told: that to the words with numbers for bounds, or that to them with the word for none. The second is where
/// the first lies at such a word alone, and where memory was refused.
fn told_of(counted: clap::Error, unbounded: clap::Error) -> clap::Error
    ensures { IsTold counted unbounded result }
{
    match unbounded.kind() {
        ErrorKind::OutOfMemory => unbounded,
        ErrorKind::InvalidValue => counted,
        _ => match counted.kind() {
            ErrorKind::ValueValidation => unbounded,
            _ => counted,
        },
    }
}

/// What the words ask for. Options offer these choices.
#[tactic(auto, using(crate::proofs::Bounds::answers_by, crate::proofs::Bounds::wrong_by, crate::proofs::Bounds::refused_by))]
pub fn asked_for<'a>(
    alloc: Global,
    words: &'a [String],
    choices: Choices<'a>,
) -> Result<Option<Asked<'a>>, clap::Error>
    // They ask for it, and nothing is wrong with them, where bounds are said by a number or by the word for none.
    ensures answers { IfOk result (λ asked. Answers choices.entry (map string_bytes words.entry.now) asked) }
    // What is told is wrong with them; words that can be taken are refused where memory is, alone.
    ensures wrong { IfErr result (λ fault. IsWrong choices.entry (map string_bytes words.entry.now) fault) }
    ensures refused { IfErr result (λ fault. AreRefusedRightly choices.entry (map string_bytes words.entry.now) fault) }
{
    match asked_with(alloc, words, Bounds::Counted, choices) {
        Ok(asked) => Ok(asked),
        Err(counted) => match asked_with(alloc, words, Bounds::Unbounded, choices) {
            Ok(asked) => Ok(asked),
            Err(unbounded) => Err(told_of(counted, unbounded)),
        },
    }
}
