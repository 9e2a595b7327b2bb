//! The questions.

ghost use Rattle.std.specs.Prelude.{◌≡◌};

use crate::commands::bundled::bundled;
use crate::commands::failing::failing;
use crate::commands::machine_files::{answer_here, answer_proved, answer_twice, bytes_here};
use crate::commands::runs::{Here, answer, coded, ended, linked, words_of};
use crate::commands::settling::{near, noise, settled_on};
use rooms_hall::{Naming, Opened};
use std::alloc::Global;
use std::marker::Brand;
use std::sync::Wait;
use std::thread::Threads;
use std::{fs, io};
use worked_fakes::{Held, text_of};
use worked_row_files::{Count, done, question_of, some};

/// The files of the rows.
const FILES: [&str; 7] = [
    "commands.txt",
    "settle.txt",
    "schedules.txt",
    "schedules-sizes.txt",
    "texts.txt",
    "lowered.txt",
    "exec.txt",
];

/// The output and standard error of a run of this kind.
fn held_of(alloc: Global, kind: &str) -> Option<(Held, Held)> {
    match kind {
        "run" | "seen" => Some((Held::ample(alloc), Held::ample(alloc))),
        "interrupted" => Some((Held::with_signals(alloc), Held::with_signals(alloc))),
        "unflushed" => Some((Held::stuck(alloc), Held::ample(alloc))),
        "untold" => Some((Held::ample(alloc), Held::stuck(alloc))),
        _ => None,
    }
}

/// The answer about a command line and the text of its file.
fn told<H: Naming + Send, R: Threads + Wait + Sync>(
    here: &Here<'_, H, R>,
    kind: &str,
    line: &str,
    text: &str,
) -> Option<String> {
    let alloc = here.alloc;
    let words = some!(words_of(alloc, line));
    let text = some!(text_of(alloc, text));
    match kind {
        "failing" => failing(here, &words, &text),
        "linked" => linked(here, &words, &text),
        "bundled" => bundled(here, &words, &text),
        "coded" => coded(here, &words, &text),
        "ends" => ended(here, &words, &text),
        _ => match held_of(alloc, kind) {
            Some((out, err)) => answer(here, &words, &text, out, err),
            None => None,
        },
    }
}

/// The same place, where the streams are terminals or are not.
fn seen_where<'a, H: Naming, R>(here: &Here<'a, H, R>, is_seen: bool) -> Here<'a, H, R> {
    Here {
        threads: here.threads,
        hall: here.hall,
        alloc: here.alloc,
        is_seen,
    }
}

/// The answer about words and a text: those of a command line, or what `settle` is asked for.
fn asked_of_text<H: Naming + Send, R: Threads + Wait + Sync>(
    here: &Here<'_, H, R>,
    kind: &str,
    line: &str,
    text: &str,
) -> Option<String> {
    match kind {
        "settled" => settled_on(here, line, &some!(text_of(here.alloc, text))),
        "near" => near(here, some!(text_of(here.alloc, text))),
        "noise" => noise(here, line),
        _ => told(&seen_where(here, kind == "seen"), kind, line, text),
    }
}

/// The answer to any question. Some are about the files of the machine.
fn asked<H: Naming + Send, R: Threads + Wait + Sync>(
    rt: &HostRuntime,
    here: &Here<'_, H, R>,
    question: &str,
) -> Option<String> {
    let (kind, rest) = question.split_once(' ').unwrap_or((question, ""));
    match kind {
        "here" => answer_here(rt, here, rest),
        "shown" => answer_here(rt, &seen_where(here, true), rest),
        "bytes" => bytes_here(rt, rest),
        "twice" => answer_twice(rt, here, rest),
        "proved" => answer_proved(rt, here, rest),
        _ => {
            let (line, text) = rest.split_once(" <").unwrap_or((rest, ""));
            asked_of_text(here, kind, line, text.trim_start())
        }
    }
}

/// Tells how many rows of a text are answered as they say, and which are not.
fn compare_lines<H: Naming + Send, R: Threads + Wait + Sync>(
    rt: &HostRuntime,
    here: &Here<'_, H, R>,
    name: &str,
    text: &str,
) -> io::Result<()> {
    let mut count = Count::none();
    for line in text.lines() {
        if let Some(question) = question_of(line) {
            let told = asked(rt, here, question);
            done!(count.add(rt, name, line, told));
        }
    }
    count.tell(rt, name)
}

/// The same of a file.
fn compare<H: Naming + Send, R: Threads + Wait + Sync>(
    rt: &HostRuntime,
    here: &Here<'_, H, R>,
    name: &str,
) -> io::Result<()> {
    let text = done!(fs::read_to_string(rt, name));
    compare_lines(rt, here, name, text.as_str())
}

/// The same of all files in a hall, under its name.
fn tell_in<H: Naming + Send, R: Threads + Wait + Sync>(
    rt: &HostRuntime,
    threads: &R,
    opened: Opened,
) -> io::Result<()>
    requires hall { opened ≡ H.hall }
{
    let hall = opened.named::<H>();
    let here = Here {
        threads,
        hall: &hall,
        alloc: rt.alloc(),
        is_seen: false,
    };
    for name in FILES {
        done!(compare(rt, &here, name));
    }
    Ok(())
}

/// Asks for each row of the files that lie beside the program, and tells how many agree. Nodes that settle or build take threads.
pub fn tell<R: Threads + Wait + Sync>(rt: &HostRuntime, threads: &R) -> io::Result<()> {
    let opened = Opened::new(rt.alloc())?;
    tell_in::<Brand, R>(rt, threads, opened)
}
