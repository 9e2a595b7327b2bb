//! Random schedules of the seats of a room, one word step at a time, with nodes that forget in any place: each step is one
//! that the reference allows, and after each the last node, which only looks, sees the words that the reference shows.

use crate::opened::seats_of;
use crate::turns::{Turn, is_as_in};
use paxos_core_world::kept::Kept;
use paxos_core_world::quorum::Quorums;
use paxos_reference::world::World;
use rand_core::utils::NextWord;
use rand_pcg::Pcg32;
use rooms_seat::WordSeat;
use std::alloc::Global;

/// How a node is heard: by looks at both of its words and the answers between them.
const HEARING: [Turn; 4] = [
    Turn::LookProposer,
    Turn::Accept,
    Turn::Promise,
    Turn::LookAcceptor,
];

/// What a seat does for this number: at times a ballot is started, and now and then a node forgets. For all numbers above 36
/// a node is heard.
fn turn_of(drawn: u32) -> Turn {
    match drawn {
        0 => Turn::Forget,
        1..=3 => Turn::Offer,
        4 => Turn::Start,
        5..=12 => Turn::Propose,
        13..=20 => Turn::LookProposer,
        21..=28 => Turn::LookAcceptor,
        29..=32 => Turn::Promise,
        _ => Turn::Accept,
    }
}

/// A number below the count, 0 where there is none.
fn number_below(draws: &mut Pcg32, count: u8) -> u8 {
    u8::try_from(draws.next_word() % u32::from(count.max(1))).unwrap_or(0)
}

/// Whether seats and reference agree in what a seat that is drawn does next.
fn agree(seats: &mut [WordSeat], world: &mut World, draws: &mut Pcg32, count: u8) -> bool {
    let place = usize::from(number_below(draws, count.saturating_sub(1)));
    let j = number_below(draws, count);
    let drawn = draws.next_word() % 64;
    if drawn <= 36 {
        return is_as_in(seats, world, place, turn_of(drawn), j);
    }
    for turn in HEARING {
        if !is_as_in(seats, world, place, turn, j) {
            return false;
        }
    }
    true
}

/// Whether they agree in so many parts of one schedule.
fn all_agree(seats: &mut [WordSeat], world: &mut World, draws: &mut Pcg32, parts: u16) -> bool {
    let count = u8::try_from(seats.len()).unwrap_or(0);
    for _ in 0..parts {
        if !agree(seats, world, draws, count) {
            return false;
        }
    }
    true
}

/// Plays one schedule of so many parts, if seats and reference agree in all. Whether a value was learned.
fn play(alloc: Global, quorums: Quorums, stream: u64, parts: u16) -> Option<bool> {
    let kept = [Kept::nothing(); 7];
    let count = usize::from(quorums.nodes());
    let Some(kept) = kept.get(..count) else {
        return None;
    };
    let mut seats = seats_of(alloc, kept, quorums);
    let Ok(mut world) = World::opening(alloc, kept, quorums) else {
        return None;
    };
    let mut words = Pcg32::new(1, stream);
    if seats.len() == count && all_agree(&mut seats, &mut world, &mut words, parts) {
        Some(!world.learned.is_empty())
    } else {
        None
    }
}

/// In how many of the schedules a value is learned; 0 where seats and reference differ in any, or the quorums need not meet.
fn learned_in(alloc: Global, quorums: Option<Quorums>, streams: u16, parts: u16) -> u16 {
    let Some(quorums) = quorums else {
        return 0;
    };
    let mut learned = 0u16;
    for stream in 0..streams {
        match play(alloc, quorums, u64::from(stream), parts) {
            Some(is_learned) => learned = learned.saturating_add(u16::from(is_learned)),
            None => return 0,
        }
    }
    learned
}

#[test]
fn schedules_agree_with_the_reference(rt: HostRuntime) {
    let three = learned_in(rt.alloc(), Quorums::majorities(3), 6, 300);
    assert!(rt; three > 3 && learned_in(rt.alloc(), Quorums::majorities(5), 4, 800) > 0);
}

#[test]
fn schedules_with_two_sizes_agree_with_the_reference(rt: HostRuntime) {
    let few_votes = learned_in(rt.alloc(), Quorums::of(4, 3, 2), 4, 600);
    assert!(rt; few_votes > 0 && learned_in(rt.alloc(), Quorums::of(4, 2, 3), 4, 600) > 0);
}
