//! The pieces of nodes, side by side.

ghost use Rattle.std.specs.Prelude.{◌≡◌, ◌<◌, ◌≤◌, ◌+◌, [], ◌∷◌, ◌++◌, All, length, map, vec_len, vec_capacity};
ghost use Rattle.std.specs.List.{AllZip};
ghost use Rattle.std.specs.Vec.Iter.{into_iter_items};
ghost use Rattle.farm_nodes_open_join.specs.Words.{generators};

use rand_pcg::Pcg32;
use std::alloc::Global;
use std::vec::IntoIter;

/// What a node is made of.
#[derive(Drop)]
pub(crate) struct Pieces<J, S, A, O> {
    pub alloc: Global,
    pub journal: J,
    pub seats: S,
    pub program: A,
    pub oracles: O,
    pub draws: Pcg32,
}

/// Puts one more behind these, which have capacity for it.
fn put<T: Drop>(all: &mut Vec<T>, one: T)
    requires { vec_len all.old < vec_capacity all.old }
    ensures items { all.new.items ≡ all.old.items ++ one ∷ [] }
    ensures len { vec_len all.new ≡ vec_len all.old + 1 }
    ensures capacity { vec_capacity all.old ≤ vec_capacity all.new }
{
    if all.push(one).is_err() {
        unreachable!();
    }
}

/// The next of those that are left.
fn next_of<T: Drop>(left: &mut IntoIter<T>) -> T
    requires { 0 < length (into_iter_items left.old) }
    ensures { into_iter_items left.old ≡ result ∷ into_iter_items left.new }
{
    let Some(next) = left.next() else {
        unreachable!();
    };
    next
}

/// The pieces of each node, in their order, and with them the generator of the seed and the node's number.
pub(crate) fn pieces_of<J: Drop, S: Drop, A: Drop, O: Drop>(
    alloc: Global,
    spare: Vec<Pieces<J, S, A, O>>,
    journals: Vec<J>,
    seats: Vec<S>,
    programs: Vec<A>,
    oracles: Vec<O>,
    seed: u64,
) -> Vec<Pieces<J, S, A, O>>
    requires none { spare.items ≡ [] }
    requires capacity { vec_len journals ≤ vec_capacity spare }
    requires seats { length seats.items ≡ length journals.items }
    requires programs { length programs.items ≡ length journals.items }
    requires oracles { length oracles.items ≡ length journals.items }
    ensures journals { map (λ p. p.journal) result.items ≡ journals.items }
    ensures seats { map (λ p. p.seats) result.items ≡ seats.items }
    ensures programs { map (λ p. p.program) result.items ≡ programs.items }
    ensures oracles { map (λ p. p.oracles) result.items ≡ oracles.items }
    ensures draws { map (λ p. p.draws) result.items ≡ generators seed (length journals.items) }
{
    let mut all = spare;
    let mut seats_left = seats.into_iter();
    let mut programs_left = programs.into_iter();
    let mut oracles_left = oracles.into_iter();
    for journal in journals {
        let pieces = Pieces {
            alloc,
            journal,
            seats: next_of(&mut seats_left),
            program: next_of(&mut programs_left),
            oracles: next_of(&mut oracles_left),
            draws: Pcg32::new(seed, all.len() as u64),
        };
        put(&mut all, pieces);
    }
    all
}

/// What is made of each value, in spare memory.
pub(crate) fn made_of<A: Drop, B: Drop, F: Fn(A) -> B>(
    spare: Vec<B>,
    values: Vec<A>,
    make: F,
) -> Vec<B>
    requires callable { All (λ v. F.pre make v) values.items }
    requires none { spare.items ≡ [] }
    requires capacity { vec_len values ≤ vec_capacity spare }
    ensures { AllZip (λ v m. F.post make v m) values.items result.items }
{
    let mut made = spare;
    for value in values {
        put(&mut made, make(value));
    }
    made
}
