//! Worked runs of disks and of rooms, which are tests. Of disks: which call fails, what a crash leaves before and after a sync, a real
//! file, and a pair of disks. Of rooms: the numbers that words are, two seats on two threads that see each other's steps, last
//! ballots, and random schedules of seats beside the protocol's slow reference.
#![tactic(auto)]

#[cfg(test)]
mod asks;
#[cfg(test)]
mod crashes;
#[cfg(test)]
mod failures;
#[cfg(test)]
mod files;
#[cfg(test)]
mod opened;
#[cfg(test)]
mod pairs;
#[cfg(test)]
mod schedules;
#[cfg(test)]
mod spent;
#[cfg(test)]
mod threads;
#[cfg(test)]
mod turns;
#[cfg(test)]
mod words;
