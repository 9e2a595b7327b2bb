//! Asks for every row of the data files, and tells how many of each file are answered as they say, and which are not: [`commands`] asks
//! for those of command lines, and the crates [`worked_agreement`], [`worked_native`], [`worked_texts`], [`worked_offers`], [`worked_farm`],
//! [`worked_journals`] and [`worked_hostile`] for theirs.
//!
//! All are one program, since a program is linked with all that it stands on, by two compilers.
#![tactic(auto)]

mod commands;

use std::io;
use std::sync::Wait;
use std::thread::Threads;
use worked_row_files::done;

fn main(rt: HostRuntime) -> io::Result<()> {
    done!(commands::tell(&rt, &rt));
    done!(worked_agreement::tell(&rt));
    done!(worked_texts::tell_texts(&rt));
    done!(worked_texts::tell_forms(&rt));
    done!(worked_offers::tell(&rt, &rt));
    done!(worked_farm::tell(&rt, &rt));
    done!(worked_texts::tell_programs(&rt));
    done!(worked_native::tell(&rt));
    done!(worked_journals::tell(&rt));
    worked_hostile::tell(&rt, &rt)
}
