//! What rows say of each node, borrowed from them.

ghost use Rattle.std.specs.Prelude.{◌≡◌, [], replicate, slice_index_or, slice_set, IfOk};
ghost use Rattle.rtl_passes_marks.specs.Handing.{spread_on};

use crate::row::NodeRow;
use lang_base::NoMemory;
use std::alloc::Global;
use std::marker::Model;

/// The entries of each node's row, none where it has no row. They are borrowed, so a look-up copies none. Of each node
/// the number of its row is kept, or how many rows there are.
#[derive(Drop)]
pub struct Said<'a, T> {
    rows: &'a [NodeRow<T>],
    places: Vec<usize>,
}

impl<'a, T> Model for Said<'a, T> {
    ghost use Rattle.std.specs.Prelude.{List, map};
    ghost use Rattle.rtl_passes_marks.specs.Handing.{entries_by};

    ghost Value = { List (List T) };

    ghost view = { λ said. map (entries_by said.rows.now) said.places.items };
}

/// This number at each of so many nodes.
fn silent(alloc: Global, nodes: usize, number: usize) -> Result<Vec<usize>, NoMemory>
    ensures { IfOk result (λ places. places.items ≡ replicate nodes number) }
{
    let mut places = Vec::with_capacity(alloc, nodes)?;
    for _ in 0..nodes {
        places.push(number)?;
    }
    Ok(places)
}

/// Puts the number at a node, if that is there.
fn say(places: &mut [usize], node: u16, number: usize)
    ensures { places.new ≡ slice_set places.old node number }
{
    let place = usize::from(node);
    if place < places.len() {
        places[place] = number;
    }
}

impl<'a, T> Said<'a, T> {
    /// The entries of each row at its node, and nothing at the others, of so many.
    pub fn of(alloc: Global, nodes: usize, rows: &'a [NodeRow<T>]) -> Result<Said<'a, T>, NoMemory>
        ensures { IfOk result (λ said. said ≡ spread_on rows.now (replicate nodes [])) }
    {
        let mut places = silent(alloc, nodes, rows.len())?;
        for (number, row) in rows.iter().enumerate() {
            say(&mut places, row.node, number);
        }
        Ok(Said { rows, places })
    }

    /// What is said of a node.
    pub fn at(&self, node: usize) -> &'a [T]
        ensures { result.now ≡ slice_index_or self.now node [] }
    {
        match self.places.get(node) {
            Some(place) => match self.rows.get(*place) {
                Some(row) => row.entries.as_slice(),
                None => &[],
            },
            None => &[],
        }
    }
}
