//! Farms, from their text to their answer.

ghost use Rattle.std.specs.Prelude.{◌≡◌};

use crate::crossed::crossed_told;
use crate::forged::forged_told;
use crate::migrated::migrated_told;
use crate::rows::{Row, Trial};
use crate::stopped::stopped_told;
use crate::strangers::{edited_told, exchanged_told, joined_told};
use crate::swept::swept_told;
use crate::unread::unread_told;
use rooms_hall::{Naming, Opened};
use std::alloc::Global;
use std::marker::Brand;
use std::sync::Wait;
use std::thread::Threads;

/// The answer, in a hall of its own.
pub(crate) fn told<R: Threads + Wait + Sync>(
    threads: &R,
    alloc: Global,
    row: Row,
) -> Option<String> {
    let Ok(opened) = Opened::new(alloc) else {
        return None;
    };
    told_in::<Brand, R>(threads, alloc, opened, row)
}

/// The same in a hall that has a name.
fn told_in<H: Naming + Send, R: Threads + Wait + Sync>(
    threads: &R,
    alloc: Global,
    opened: Opened,
    row: Row,
) -> Option<String>
    requires { opened ≡ H.hall }
{
    let hall = opened.named::<H>();
    let quorums = row.quorums;
    let text = row.text.as_slice();
    match row.trial {
        Trial::Forged => forged_told(threads, alloc, &hall, &row.how, text, quorums),
        Trial::Exchanged => exchanged_told(threads, alloc, &hall, text, quorums),
        Trial::Edited => edited_told(threads, alloc, &hall, text, quorums),
        Trial::Joined => joined_told(threads, alloc, &hall, text, quorums),
        Trial::Crossed => crossed_told(threads, alloc, &hall, text, quorums),
        Trial::Unread => unread_told(threads, alloc, &hall, text, quorums),
        Trial::Migrated => migrated_told(threads, alloc, &hall, text, quorums),
        Trial::Stopped => stopped_told(threads, alloc, &hall, &row.how, text, quorums),
        Trial::Swept => swept_told(threads, alloc, &hall, &row.how, text, quorums),
    }
}
