//! Functions of RTL that words choose.

use crate::kinds::{Kind, proposed};
use rand_core::utils::NextWord;
use rand_pcg::Pcg32;
use std::alloc::{AllocError, Global};
use worked_row_files::{bytes_of, done, fine, owned, some};

/// How functions are drawn: the bytes in front of the nodes, how many registers and nodes there are, and the forms of
/// a node, of which each is as likely. In a form `r` stands for a register, `n` for a node, `g` for one of two globals
/// and `v` for a word below 4, each of 16 bits.
#[derive(Clone, Copy)]
pub struct Drawing<'a> {
    head: &'a str,
    registers: u32,
    nodes: u32,
    pub count: u64,
    forms: &'a [&'a str],
}

/// How functions are drawn: the head, the registers, the nodes, the count and the forms.
pub fn drawing_of<'a>(words: &'a [&'a str]) -> Option<Drawing<'a>> {
    let [head, registers, nodes, count, forms @ ..] = words else {
        return None;
    };
    Some(Drawing {
        head,
        registers: fine!(registers.parse()),
        nodes: fine!(nodes.parse()),
        count: fine!(count.parse()),
        forms,
    })
}

/// A number below a bound; 0 where that is 0.
fn small(draws: &mut Pcg32, below: u32) -> u32 {
    draws.next_word() % below.max(1)
}

/// A node of this form.
fn push_node(
    drawing: Drawing<'_>,
    form: &str,
    draws: &mut Pcg32,
    text: &mut String,
) -> Result<(), AllocError> {
    for letter in form.chars() {
        let below = match letter {
            'r' => drawing.registers,
            'n' => drawing.nodes,
            'g' => 2,
            'v' => 4,
            _ => {
                done!(text.push(letter));
                continue;
            }
        };
        let chosen = small(draws, below);
        done!(write!(text, "{chosen:04x}"));
    }
    Ok(())
}

/// The text of a function that the words of a seed choose.
fn drawn_text(alloc: Global, drawing: Drawing<'_>, seed: u64) -> Result<String, AllocError> {
    let mut words = Pcg32::new(seed, 1);
    let mut text = done!(drawing.head.to_string(alloc));
    for _ in 0..drawing.nodes {
        let place = words.next_word() as usize % drawing.forms.len().max(1);
        if let Some(form) = drawing.forms.get(place) {
            done!(push_node(drawing, form, &mut words, &mut text));
        }
    }
    Ok(text)
}

/// The function that the words of a seed choose.
pub fn drawn_input(alloc: Global, drawing: Drawing<'_>, seed: u64) -> Option<Vec<u8>> {
    let text = fine!(drawn_text(alloc, drawing, seed));
    bytes_of(alloc, text.as_str())
}

/// How many of the proposals for the functions that are drawn differ from the input, if all are accepted.
fn changed(alloc: Global, kind: Kind, drawing: Drawing<'_>) -> Option<u64> {
    let mut changed = 0u64;
    for seed in 1..=drawing.count {
        let input = some!(drawn_input(alloc, drawing, seed));
        if some!(proposed(alloc, kind, &input, seed)) != input {
            changed = changed.saturating_add(1);
        }
    }
    Some(changed)
}

/// Whether the proposals for all functions that are drawn are accepted, and whether more than ten of them differ from
/// the input.
pub fn drawn(alloc: Global, kind: Kind, question: &str) -> Option<String> {
    let words: Vec<&str> = fine!(question.split(' ').collect(alloc));
    let drawing = some!(drawing_of(words.as_slice()));
    let is_changed = some!(changed(alloc, kind, drawing)) > 10;
    owned(
        alloc,
        if is_changed {
            "accepted, changed"
        } else {
            "accepted"
        },
    )
}
