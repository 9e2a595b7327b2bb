//! The memory of offers, which several threads give back.

use bundle_reading::Four;
use std::alloc::Global;
use std::thread::{Threads, join};

/// Gives back the memory of a function's offers, those of the four passes side by side.
fn put_four_away<R: Threads + Sync>(rt: &R, four: Four) {
    let Four {
        constants,
        expressions,
        allocation,
        order,
    } = four;
    join(
        rt,
        || -> () {
            join(
                rt,
                || -> () { drop(constants) },
                || -> () { drop(expressions) },
            );
        },
        || -> () {
            join(rt, || -> () { drop(allocation) }, || -> () { drop(order) });
        },
    );
}

/// The latter half of the offers, which the first half is left without.
fn latter_half(alloc: Global, fours: &mut Vec<Four>) -> Vec<Four> {
    let mut half = Vec::new(alloc);
    for _ in 0..fours.len() / 2 {
        if let Some(four) = fours.pop() {
            let _ = half.push(four);
        }
    }
    half
}

/// Gives back the memory of all functions' offers, a quarter of the functions in each of four threads; where there is one function, the
/// passes are shared.
pub fn put_fours_away<R: Threads + Sync>(rt: &R, alloc: Global, fours: Vec<Four>) {
    let mut first = fours;
    let mut third = latter_half(alloc, &mut first);
    if third.is_empty() {
        if let Some(four) = first.pop() {
            put_four_away(rt, four);
        }
        return;
    }
    let second = latter_half(alloc, &mut first);
    let fourth = latter_half(alloc, &mut third);
    join(
        rt,
        || -> () {
            join(rt, || -> () { drop(first) }, || -> () { drop(second) });
        },
        || -> () {
            join(rt, || -> () { drop(third) }, || -> () { drop(fourth) });
        },
    );
}
