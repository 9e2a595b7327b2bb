//! Many validations at once: the answers do not depend on the threads, and more than one thread is used.

use crate::passes::parts_of;
use constprop_check::ConstProp;
use cse_check::Cse;
use lang_base::Pass;
use linearize_check::Linearize;
use parallel_validate::{Gate, Job, OpenGate, check_all};
use std::alloc::Global;
use std::sync::Wait;
use std::sync::atomic::{AtomicBool, Ordering};
use std::thread::{self, Threads};
use std::{fs, io};
use worked_row_files::{Count, bytes_of, done, fine, owned, question_of, some};

/// The file of the rows.
const NAME: &str = "validations.txt";

/// How often the first job looks for the answer of the second.
const LOOKS: u32 = 1_000_000;

/// So many jobs: one that the pass accepts, one that it refuses, and so on in turn.
fn in_turn<P: Pass>(
    alloc: Global,
    accepted: &[u8],
    refused: &[u8],
    count: usize,
) -> Option<Vec<Job<P>>> {
    let mut jobs = Vec::new(alloc);
    for number in 0..count {
        let bytes = if number % 2 == 0 { accepted } else { refused };
        fine!(jobs.push(fine!(parts_of::<P>(alloc, bytes))));
    }
    Some(jobs)
}

/// What so many workers answer to each of so many jobs.
fn answers_of<P: Pass + Sync, G: Gate + Sync, R: Threads + Wait + Sync>(
    rt: &R,
    alloc: Global,
    accepted: &[u8],
    refused: &[u8],
    count: usize,
    workers: usize,
    gate: &G,
) -> Option<Vec<bool>>
where
    P::In: Sync,
    P::Out: Sync,
{
    let jobs = some!(in_turn::<P>(alloc, accepted, refused, count));
    check_all::<P, G, R>(rt, alloc, &jobs, workers.max(1), gate).ok()
}

/// Whether so many jobs are answered, each with an even number with yes and the others with no.
fn are_in_turn(answers: &[bool], count: usize) -> bool {
    let mut is_yes = true;
    for answer in answers {
        if *answer != is_yes {
            return false;
        }
        is_yes = !is_yes;
    }
    answers.len() == count
}

/// The same of the pass that is asked for.
fn answers_by<R: Threads + Wait + Sync>(
    rt: &R,
    alloc: Global,
    asked: &str,
    accepted: &[u8],
    refused: &[u8],
    count: usize,
    workers: usize,
) -> Option<Vec<bool>> {
    let gate = &OpenGate;
    match asked {
        "constants" => answers_of::<ConstProp, OpenGate, R>(
            rt, alloc, accepted, refused, count, workers, gate,
        ),
        "subexpressions" => answers_of::<Cse, OpenGate, R>(
            rt, alloc, accepted, refused, count, workers, gate,
        ),
        "linearized" => answers_of::<Linearize, OpenGate, R>(
            rt, alloc, accepted, refused, count, workers, gate,
        ),
        _ => None,
    }
}

/// What is told of so many jobs by each number of workers from 1 to the given one.
fn many_told<R: Threads + Wait + Sync>(
    rt: &R,
    alloc: Global,
    asked: &str,
    accepted: &[u8],
    refused: &[u8],
    counts: (usize, usize),
) -> Option<String> {
    let (count, most) = counts;
    for workers in 1..=most {
        let answers = some!(answers_by(rt, alloc, asked, accepted, refused, count, workers));
        if !are_in_turn(answers.as_slice(), count) {
            return owned(alloc, "other answers");
        }
    }
    owned(alloc, "in turn")
}

/// Holds job 0 until job 1 is answered, as long as its looks last.
#[derive(Drop)]
struct Meeting {
    answered: AtomicBool,
    met: AtomicBool,
}

impl Meeting {
    /// Looks until job 1 is answered.
    fn wait(&self) {
        for _ in 0..LOOKS {
            if self.answered.load(Ordering::SeqCst) {
                self.met.store(true, Ordering::SeqCst);
                return;
            }
            thread::yield_now();
        }
    }
}

impl Gate for Meeting {
    fn before(&self, job: usize) {
        if job == 0 {
            self.wait();
        }
    }

    fn after(&self, job: usize) {
        if job == 1 {
            self.answered.store(true, Ordering::SeqCst);
        }
    }
}

/// Whether two workers do two jobs at the same time.
fn met_told<R: Threads + Wait + Sync>(
    rt: &R,
    alloc: Global,
    accepted: &[u8],
    refused: &[u8],
) -> Option<String> {
    let meeting = Meeting {
        answered: AtomicBool::new(false),
        met: AtomicBool::new(false),
    };
    let answers = answers_of::<ConstProp, Meeting, R>(rt, alloc, accepted, refused, 2, 2, &meeting);
    let is_met = are_in_turn(some!(answers).as_slice(), 2) && meeting.met.load(Ordering::SeqCst);
    owned(alloc, if is_met { "met" } else { "one after the other" })
}

/// The answer to a question about many validations.
fn answer<R: Threads + Wait + Sync>(threads: &R, alloc: Global, question: &str) -> Option<String> {
    let words: Vec<&str> = fine!(question.split(' ').collect(alloc));
    let [asked, count, most, accepted, refused] = words.as_slice() else {
        return None;
    };
    let count: usize = fine!(count.parse());
    let most: usize = fine!(most.parse());
    let accepted = some!(bytes_of(alloc, accepted));
    let refused = some!(bytes_of(alloc, refused));
    match *asked {
        "met" if count == 2 && most == 2 => met_told(threads, alloc, &accepted, &refused),
        _ => many_told(threads, alloc, asked, &accepted, &refused, (count, most)),
    }
}

/// Tells how many rows of the text are answered as they say, on threads.
fn tell_lines<R: Threads + Wait + Sync>(
    rt: &HostRuntime,
    threads: &R,
    text: &str,
) -> io::Result<()> {
    let mut count = Count::none();
    for line in text.lines() {
        if let Some(question) = question_of(line) {
            let told = answer(threads, rt.alloc(), question);
            done!(count.add(rt, NAME, line, told));
        }
    }
    count.tell(rt, NAME)
}

/// The same of the file.
pub fn tell_validations<R: Threads + Wait + Sync>(rt: &HostRuntime, threads: &R) -> io::Result<()> {
    let text = done!(fs::read_to_string(rt, NAME));
    tell_lines(rt, threads, text.as_str())
}
