//! Webs: the parts of a register's life that no edge connects are told apart, so that each may lie elsewhere (Chaitin 1982).

use crate::limits::MOST_WEBS;
use crate::places::{Places, Span};
use lang_base::NoMemory;
use oracle_alloc::{Joined, defined_by, edges_of};
use rtl_acts::Register;
use rtl_language::{Function, Instruction};
use std::alloc::Global;

/// The web at each place, of what each node defines, and of each parameter; and how many webs there are.
#[derive(Drop)]
pub struct Webs {
    pub at_places: Vec<u16>,
    pub defined: Vec<u16>,
    pub parameters: Vec<u16>,
    pub count: u16,
}

/// What is to be numbered: places, then what nodes define, then parameters, each a number of the joined ones.
#[derive(Drop)]
struct Numbering {
    joined: Joined,
    numbers: Vec<Option<u16>>,
    count: u32,
}

impl Numbering {
    fn new(alloc: Global, count: u32) -> Result<Numbering, NoMemory> {
        Ok(Numbering {
            joined: Joined::alone(alloc, count)?,
            numbers: vec![in alloc; None; count as usize]?,
            count: 0,
        })
    }

    /// The web of one of them: the next that is not taken, where none of those joined with it has one.
    fn web_of(&mut self, one: u32) -> u16 {
        let root = self.joined.root(one);
        match self.numbers.get_mut(root as usize) {
            Some(Some(web)) => *web,
            Some(number) => {
                let web = u16::try_from(self.count).unwrap_or(u16::MAX);
                *number = Some(web);
                self.count = self.count.saturating_add(1);
                web
            }
            None => 0,
        }
    }

    /// The web of what each node defines, which are numbered from this one on; 0 where it defines nothing.
    fn webs_defined(
        &mut self,
        alloc: Global,
        first: u32,
        nodes: &[Instruction],
    ) -> Result<Vec<u16>, NoMemory> {
        let mut webs = Vec::with_capacity(alloc, nodes.len())?;
        for (one, instruction) in (first..u32::MAX).zip(nodes.iter()) {
            let web = match defined_by(instruction) {
                Some(_) => self.web_of(one),
                None => 0,
            };
            webs.push(web)?;
        }
        Ok(webs)
    }

    /// The webs of those from this one on.
    fn webs_of(&mut self, alloc: Global, from: u32, count: u32) -> Result<Vec<u16>, NoMemory> {
        let mut webs = Vec::with_capacity(alloc, count as usize)?;
        for one in 0..count {
            webs.push(self.web_of(from.saturating_add(one)))?;
        }
        Ok(webs)
    }
}

/// The places before two nodes, and what the first one defines, as a register and as a number of the joined ones.
#[derive(Clone, Copy)]
struct Edge<'a> {
    places: &'a Places,
    defined: Option<Register>,
    definition: u32,
}

impl Edge<'_> {
    /// Joins the place with that of its register where the edge begins, which is sought from a place on: which is found.
    fn join_place(&self, joined: &mut Joined, place: u32, from: Span) -> Span {
        let Some(register) = self.places.register(place) else {
            return from;
        };
        if self.defined == Some(register) {
            joined.join(place, self.definition);
            return from;
        }
        let found = self.places.seek(from, register);
        if found < from.end {
            joined.join(place, found);
        }
        Span {
            from: found,
            end: from.end,
        }
    }

    /// Joins each place before the node where the edge leads.
    fn join(&self, joined: &mut Joined, node: u16, to: Option<u16>) {
        let Some(to) = to else {
            return;
        };
        let behind = self.places.before(to);
        let mut from = self.places.before(node);
        for place in behind.from..behind.end {
            from = self.join_place(joined, place, from);
        }
    }
}

/// Joins all places that edges connect.
fn join_all(joined: &mut Joined, places: &Places, nodes: &[Instruction]) {
    for (node, instruction) in (0..=u16::MAX).zip(nodes.iter()) {
        let edge = Edge {
            places,
            defined: defined_by(instruction),
            definition: places.count().saturating_add(u32::from(node)),
        };
        let to = edges_of(instruction);
        edge.join(joined, node, to.first);
        edge.join(joined, node, to.second);
    }
}

/// Joins each parameter that is live at the entry with its place there.
fn join_parameters(joined: &mut Joined, places: &Places, input: &Function, first: u32) {
    for (parameter, number) in input.parameters().as_slice().iter().zip(first..u32::MAX) {
        if let Some(place) = places.find(input.entry(), *parameter) {
            joined.join(place, number);
        }
    }
}

/// The webs of a function; none where they are too many.
pub fn webs_of(alloc: Global, input: &Function, places: &Places) -> Result<Option<Webs>, NoMemory> {
    let nodes = input.nodes().as_slice();
    let parameters = u32::try_from(input.parameters().len()).unwrap_or(0);
    let defined = u32::try_from(nodes.len()).unwrap_or(0);
    let first = places.count().saturating_add(defined);
    let mut numbering = Numbering::new(alloc, first.saturating_add(parameters))?;
    join_all(&mut numbering.joined, places, nodes);
    join_parameters(&mut numbering.joined, places, input, first);
    let at_places = numbering.webs_of(alloc, 0, places.count())?;
    let parameters = numbering.webs_of(alloc, first, parameters)?;
    let defined = numbering.webs_defined(alloc, places.count(), nodes)?;
    if numbering.count > MOST_WEBS {
        return Ok(None);
    }
    Ok(Some(Webs {
        at_places,
        defined,
        parameters,
        count: u16::try_from(numbering.count).unwrap_or(u16::MAX),
    }))
}
