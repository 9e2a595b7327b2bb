use lang_base::NoMemory;
use std::alloc::Global;
use std::sync::atomic::{AtomicBool, AtomicU64, Ordering};

/// How far one node is: how many turns it has taken, or the greatest number where it takes no more, and whether nobody has to go on for
/// it, since it has learned in all its rooms or has failed.
#[derive(Drop)]
struct Place {
    turns: AtomicU64,
    is_content: AtomicBool,
}

/// How far each node is. No contract speaks of it: it decides when a node goes on, not what it does.
#[derive(Drop)]
pub struct Pace {
    places: Vec<Place>,
    /// How many turns are under way.
    turning: AtomicU64,
    /// How many turns brought something new.
    moves: AtomicU64,
    is_refused: AtomicBool,
}

impl Pace {
    /// So many nodes, which have not begun.
    pub fn new(alloc: Global, nodes: usize) -> Result<Pace, NoMemory> {
        let mut places = Vec::with_capacity(alloc, nodes)?;
        for _node in 0..nodes {
            places.push(Place {
                turns: AtomicU64::new(0),
                is_content: AtomicBool::new(false),
            })?;
        }
        Ok(Pace {
            places,
            turning: AtomicU64::new(0),
            moves: AtomicU64::new(0),
            is_refused: AtomicBool::new(false),
        })
    }

    /// Whether a node that has taken so many turns, and may be so many ahead, has to let others catch up that have still to learn.
    pub fn is_ahead(&self, turns: u64, most: u64) -> bool {
        self.places.iter().any(|other| !other.is_content.load(Ordering::SeqCst)
            && other.turns.load(Ordering::SeqCst).saturating_add(most) <= turns)
    }

    /// Whether no turn is to be taken any more.
    pub fn is_over(&self) -> bool {
        self.is_refused()
            || self
                .places
                .iter()
                .all(|place| place.is_content.load(Ordering::SeqCst))
    }

    /// Notes how many turns the node has taken, and whether it has learned in all its rooms.
    pub fn note(&self, node: usize, turns: u64, is_content: bool) {
        if let Some(place) = self.places.get(node) {
            place.turns.store(turns, Ordering::SeqCst);
            place.is_content.store(is_content, Ordering::SeqCst);
        }
    }

    /// Notes that a turn begins.
    pub fn begin_turn(&self) {
        self.turning.fetch_add(1, Ordering::SeqCst);
    }

    /// Notes that a turn is over, and whether it brought something new.
    pub fn end_turn(&self, is_new: bool) {
        if is_new {
            self.moves.fetch_add(1, Ordering::SeqCst);
        }
        self.turning.fetch_sub(1, Ordering::SeqCst);
    }

    /// Whether a turn is under way.
    pub fn is_turning(&self) -> bool {
        self.turning.load(Ordering::SeqCst) != 0
    }

    /// How many turns brought something new, of all nodes.
    pub fn moves(&self) -> u64 {
        self.moves.load(Ordering::SeqCst)
    }

    /// Notes that the node takes no more turns: nobody waits for it, nor goes on for it where it is content.
    pub fn end(&self, node: usize, is_content: bool) {
        self.note(node, u64::MAX, is_content);
    }

    /// Notes that a thread was refused: nobody begins another turn.
    pub fn refuse(&self) {
        self.is_refused.store(true, Ordering::SeqCst);
    }

    /// Whether a thread was refused.
    pub fn is_refused(&self) -> bool {
        self.is_refused.load(Ordering::SeqCst)
    }
}
