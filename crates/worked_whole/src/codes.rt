//! The code that nodes link, by functions.

use crate::running::Node;
use farm_nodes::{NumberedSeat, has_learned_function, learned_offer, meet_nodes};
use rooms_hall::Naming;
use std::alloc::Global;

/// The offer that is learned in the last room of a function, of which its code is a part; no bytes where it is not linked.
fn code_of<H: Naming>(alloc: Global, numbered: &NumberedSeat<H>) -> Option<Vec<u8>> {
    let mut code = Vec::new(alloc);
    if !has_learned_function(numbered) {
        return Some(code);
    }
    let Some(offer) = learned_offer(&numbered.seat.fourth) else {
        return None;
    };
    match offer.write(&mut code) {
        Ok(()) => Some(code),
        Err(_) => None,
    }
}

/// The same of each function of a node.
pub fn codes_of<H: Naming>(alloc: Global, node: &Node<H>) -> Option<Vec<Vec<u8>>> {
    let mut codes = Vec::new(alloc);
    for function in 0..node.seats.len() {
        let Some(code) = code_of(alloc, &node.seats[function]) else {
            return None;
        };
        if codes.push(code).is_err() {
            return None;
        }
    }
    Some(codes)
}

/// Whether each function that was linked before is linked with the same code.
pub fn stays(before: &[Vec<u8>], after: &[Vec<u8>]) -> bool {
    if before.len() != after.len() {
        return false;
    }
    for function in 0..before.len() {
        let code = &before[function];
        if !code.is_empty() && code.as_slice() != after[function].as_slice() {
            return false;
        }
    }
    true
}

/// Whether each function is linked.
fn are_linked(codes: &[Vec<u8>]) -> bool {
    for code in codes {
        if code.is_empty() {
            return false;
        }
    }
    true
}

/// Whether the nodes meet and both link each function.
fn both_link<H: Naming>(first: &mut Node<H>, second: &mut Node<H>) -> bool {
    let functions = first.seats.len();
    functions <= 64 && usize::from(meet_nodes(first, second)) == functions
}

/// Whether each node meets the next, and both link each function.
fn all_meet<H: Naming>(nodes: &mut [Node<H>]) -> bool {
    for number in 1..nodes.len() {
        let (front, back) = nodes.split_at_mut(number);
        if !both_link(&mut front[number - 1], &mut back[0]) {
            return false;
        }
    }
    true
}

/// What the nodes link, where all link all functions, and the same.
fn alike<H: Naming>(alloc: Global, nodes: &[Node<H>]) -> Option<Vec<Vec<u8>>> {
    let Some(first) = nodes.first() else {
        return None;
    };
    let Some(codes) = codes_of(alloc, first) else {
        return None;
    };
    if !are_linked(&codes) {
        return None;
    }
    for node in nodes {
        let Some(others) = codes_of(alloc, node) else {
            return None;
        };
        if !stays(&codes, &others) {
            return None;
        }
    }
    Some(codes)
}

/// The same, where each node meets the next.
pub fn all_linked<H: Naming>(alloc: Global, nodes: &mut [Node<H>]) -> Option<Vec<Vec<u8>>> {
    if !all_meet(nodes) {
        return None;
    }
    alike(alloc, nodes)
}
