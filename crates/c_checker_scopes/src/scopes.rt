ghost use Rattle.std.specs.Prelude.{◌≡◌, ◌≤◌, ◌-◌, [], ◌∷◌, length, drop, OnOk, OnErr};
ghost use Rattle.std.specs.Option.{option_map};
ghost use Rattle.c_checker_scopes.specs.Bound.{found, binding_of};

use crate::binding::{Binding, Entry, Link};
use crate::symbols::symbol_for;
use indexmap::IndexSet;
use lang_base::NoMemory;
use std::alloc::Global;
use std::marker::Model;

/// The names that mean something at a place of a text, each with what it was bound to, the newest first. It takes
/// memory in the number of the bindings and of the bytes of the names that were ever bound. Names are hashed with a
/// fixed seed, so names that were chosen to collide are looked up slowly.
#[derive(Drop)]
pub struct Scopes<T> {
    symbols: IndexSet<Vec<u8>>,
    latest: Vec<Option<usize>>,
    entries: Vec<Entry<T>>,
}

impl<T> Model for Scopes<T> {
    ghost use Rattle.std.specs.Prelude.{List};
    ghost use Rattle.c_checker_scopes.specs.Bound.{Bound};
    ghost use Rattle.c_checker_scopes.specs.Table.{names_of, bounds_of, links_of, IsTable};

    ghost Value = { List (Bound T) };

    ghost view = { λ s. bounds_of (names_of s.symbols.keys) s.entries.items };

    ghost invariant = { λ s. IsTable (names_of s.symbols.keys) s.latest.items (links_of s.entries.items) };
}

impl<T> Scopes<T> {
    /// The table in which no name means anything; takes no memory.
    pub fn new(alloc: Global) -> Scopes<T>
        ensures { result ≡ [] }
    {
        Scopes {
            symbols: IndexSet::new(alloc),
            latest: Vec::new(alloc),
            entries: Vec::new(alloc),
        }
    }

    /// How many bindings there are: a mark to which `shorten_to` leads back.
    pub fn len(&self) -> usize
        ensures { result ≡ length self.now }
    {
        self.entries.len()
    }
}

impl<T: Copy> Scopes<T> {
    /// What a name means.
    pub fn find(&self, name: &[u8]) -> Option<Binding<T>>
        ensures { result ≡ option_map binding_of (found name.now self.now) }
    {
        let symbol = self.symbols.get_index_of(name)?;
        let place = self.latest[symbol]?;
        let entry = &self.entries[place];
        Some(Binding {
            depth: entry.depth,
            value: entry.value,
        })
    }
}

impl<T: Drop> Scopes<T> {
    /// Binds a name, whatever it meant: from now on it means this.
    pub fn bind(&mut self, name: &[u8], depth: u32, value: T) -> Result<(), NoMemory>
        ensures ok { OnOk result (self.new ≡ record { name = name.now; depth = depth; value = value } ∷ self.old) }
        ensures err { OnErr result (self.new ≡ self.old) }
    {
        let symbol = symbol_for(&mut self.symbols, &mut self.latest, name)?;
        let shadowed = self.latest[symbol];
        let place = self.entries.len();
        let link = Link { symbol, shadowed };
        self.entries.push(Entry { link, depth, value })?;
        self.latest[symbol] = Some(place);
        Ok(())
    }

    /// Forgets the newest binding, if there is one: its name means again what it meant before.
    fn forget_newest(&mut self)
        ensures { self.new ≡ drop 1 self.old }
    {
        if let Some(gone) = self.entries.pop() {
            self.latest[gone.link.symbol] = gone.link.shadowed;
        }
    }

    /// Goes back to when there were `mark` bindings: what was bound since is forgotten. Takes no memory.
    pub fn shorten_to(&mut self, mark: usize)
        requires { mark ≤ length self.old }
        ensures { self.new ≡ drop (length self.old - mark) self.old }
    {
        while self.len() > mark {
            self.forget_newest();
        }
    }
}
