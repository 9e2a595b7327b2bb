use crate::lists::Lists;
use lang_base::NoMemory;
use oracle_graphs::Joined;
use std::alloc::Global;

/// Webs that are to lie in one location, each class by one of its webs: before which nodes it is live, which nodes define
/// it, how often it is thought to be named in a run, and whether it is live over a call.
#[derive(Drop)]
pub(crate) struct Classes {
    pub joined: Joined,
    pub lives: Lists,
    pub definitions: Lists,
    weights: Vec<u64>,
    is_kept: Vec<bool>,
}

impl Classes {
    /// So many webs, each alone, of which nothing is known.
    pub fn alone(alloc: Global, count: u16) -> Result<Classes, NoMemory> {
        Ok(Classes {
            joined: Joined::alone(alloc, u32::from(count))?,
            lives: Lists::empty(alloc, count)?,
            definitions: Lists::empty(alloc, count)?,
            weights: vec![in alloc; 0; usize::from(count)]?,
            is_kept: vec![in alloc; false; usize::from(count)]?,
        })
    }

    /// The class of a web.
    pub fn class_of(&mut self, web: u16) -> u16 {
        u16::try_from(self.joined.root(u32::from(web))).unwrap_or(web)
    }

    pub fn weight(&self, class: u16) -> u64 {
        self.weights.get(usize::from(class)).copied().unwrap_or(0)
    }

    pub fn is_kept(&self, class: u16) -> bool {
        self.is_kept
            .get(usize::from(class))
            .copied()
            .unwrap_or(false)
    }

    /// It is named so often more.
    pub fn weigh(&mut self, class: u16, weight: u64) {
        if let Some(old) = self.weights.get_mut(usize::from(class)) {
            *old = old.saturating_add(weight);
        }
    }

    /// It is live over a call.
    pub fn keep(&mut self, class: u16) {
        if let Some(is_kept) = self.is_kept.get_mut(usize::from(class)) {
            *is_kept = true;
        }
    }

    /// Makes two classes one.
    pub fn merge(&mut self, class: u16, other: u16) {
        if class == other {
            return;
        }
        self.joined.join(u32::from(class), u32::from(other));
        self.lives.take_over(class, other);
        self.definitions.take_over(class, other);
        self.weigh(class, self.weight(other));
        if self.is_kept(other) {
            self.keep(class);
        }
    }
}
