//! Orders of nodes, and what is laid out by them.

use crate::judging::fault_told;
use crate::kinds::{Kind, proposed};
use crate::passes::{fault_in, function_of, spelled};
use linear_language::Linear;
use linearize_check::{Order, arrange};
use linearize_check_layout::{reachable, rising};
use ltl::{Function, Ltl};
use offers::Parts;
use oracle_order::OrderOracle;
use std::alloc::Global;
use worked_row_files::{bytes_of, fine, owned, some};

/// Nodes with commas between; `-` stands for none.
fn nodes_of(alloc: Global, text: &str) -> Option<Vec<u16>> {
    let mut nodes = Vec::new(alloc);
    if text == "-" {
        return Some(nodes);
    }
    for word in text.split(',') {
        fine!(nodes.push(fine!(word.parse())));
    }
    Some(nodes)
}

/// The function of LTL that is spelled so.
fn input_of(alloc: Global, text: &str) -> Option<Function> {
    function_of::<Ltl>(alloc, &some!(bytes_of(alloc, text)))
}

/// What is said of an input, an output and an order of the nodes.
fn order_told(alloc: Global, input: &str, output: &str, nodes: &str) -> Option<String> {
    let parts = Parts {
        input: some!(input_of(alloc, input)),
        output: some!(function_of::<Linear>(alloc, &some!(bytes_of(alloc, output)))),
        certificate: Order::from_vec(some!(nodes_of(alloc, nodes))),
    };
    fault_told(alloc, some!(fault_in::<OrderOracle>(alloc, &parts)))
}

/// The text of what is laid out by the nodes, or `none`.
fn layout_told(alloc: Global, input: &Function, nodes: Vec<u16>) -> Option<String> {
    match fine!(arrange(alloc, input, nodes)) {
        Some((output, _order)) => {
            hex::encode(alloc, &some!(spelled::<Linear>(alloc, &output))).ok()
        }
        None => owned(alloc, "none"),
    }
}

/// The same, if what is proposed for the input is accepted where it is laid out.
fn arranged(alloc: Global, text: &str, nodes: &str, seed: u64) -> Option<String> {
    let nodes = some!(nodes_of(alloc, nodes));
    let told = some!(layout_told(alloc, &some!(input_of(alloc, text)), nodes));
    if told.as_str() != "none" {
        let bytes = some!(bytes_of(alloc, text));
        let _output = some!(proposed(alloc, Kind::Linearized, &bytes, seed));
    }
    Some(told)
}

/// The nodes that are marked.
fn marked(alloc: Global, input: &Function) -> Option<Vec<u16>> {
    let marks = fine!(reachable(alloc, input));
    let mut nodes = Vec::new(alloc);
    for (node, is_reached) in (0..u16::MAX).zip(marks.as_slice()) {
        if *is_reached {
            fine!(nodes.push(node));
        }
    }
    Some(nodes)
}

/// Whether just these nodes are reached, marked so, and listed rising.
fn reached(alloc: Global, text: &str, nodes: &str) -> Option<String> {
    let nodes = some!(nodes_of(alloc, nodes));
    let input = some!(input_of(alloc, text));
    let marks = some!(marked(alloc, &input));
    let rises = fine!(rising(alloc, &input));
    let is_so = rises.as_slice() == nodes.as_slice() && marks.as_slice() == nodes.as_slice();
    owned(alloc, if is_so { "yes" } else { "no" })
}

/// The answer to a question about orders.
pub fn order_answer(alloc: Global, question: &str, row: u64) -> Option<String> {
    let words: Vec<&str> = fine!(question.split(' ').collect(alloc));
    match words.as_slice() {
        ["order", input, output, nodes] => order_told(alloc, input, output, nodes),
        ["arranged", input, nodes] => arranged(alloc, input, nodes, row),
        ["reached", input, nodes] => reached(alloc, input, nodes),
        _ => None,
    }
}
