//! The nodes of a function of RTL.

use lang_base::Language;
use rtl_decoded::{make_ready, run_here};
use rtl_language::Rtl;
use std::alloc::Global;
use worked_row_files::{bytes_of, fine, some};

/// Where the nodes stop that are done from the entry on, the node behind it, and what is left of the limit.
pub fn nodes_told(alloc: Global, words: &str) -> Option<String> {
    let (limit, text) = some!(words.split_once(' '));
    let mut left = fine!(limit.parse());
    let (function, _length) = fine!(Rtl::read(alloc, &some!(bytes_of(alloc, text))));
    let nodes = function.nodes().as_slice();
    let ready = fine!(make_ready(alloc, nodes));
    let mut registers = fine!(vec![in alloc; None; usize::from(function.registers())]);
    let mut place = function.entry();
    let stop = run_here(
        &ready,
        nodes,
        &mut place,
        &mut registers,
        &mut [],
        &mut left,
    );
    format!(in alloc; "{stop:?} {place} {left}").ok()
}
