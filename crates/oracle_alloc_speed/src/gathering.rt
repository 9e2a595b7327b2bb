//! What is known of each web, from the code.

use crate::classes::Classes;
use lang_base::NoMemory;
use oracle_graphs::weight_at;
use oracle_webs::{Places, Webs, defined_by};
use rtl_acts::{Act, Arguments, Register};
use rtl_language::{Function, Instruction};
use std::alloc::Global;

/// Whether what the instruction does is not needed where its target is not.
fn may_be_left_out(instruction: &Instruction) -> bool {
    match instruction {
        Instruction::Do { act, .. } => matches!(
            act,
            Act::Constant { .. } | Act::Move { .. } | Act::Operate { .. } | Act::Load { .. }
        ),
        _ => false,
    }
}

/// What the instruction defines, and the node behind it.
fn definition_of(instruction: &Instruction) -> Option<(Register, u16)> {
    match instruction {
        Instruction::Do { successor, .. } | Instruction::Call { successor, .. } => {
            Some((defined_by(instruction)?, *successor))
        }
        _ => None,
    }
}

/// For each node whether nothing is to be done there, since nobody uses what it defines.
pub(crate) fn needless(
    alloc: Global,
    places: &Places,
    nodes: &[Instruction],
) -> Result<Vec<bool>, NoMemory> {
    let mut told = Vec::with_capacity(alloc, nodes.len())?;
    for instruction in nodes {
        let is_used = match definition_of(instruction) {
            Some((register, behind)) => places.find(behind, register).is_some(),
            None => true,
        };
        told.push(!is_used && may_be_left_out(instruction))?;
    }
    Ok(told)
}

/// What is looked at to tell of each web, and what is told so far.
#[derive(Drop)]
struct Gathering<'a> {
    places: &'a Places,
    webs: &'a Webs,
    depths: &'a [u8],
    classes: Classes,
}

impl Gathering<'_> {
    fn web_at(&self, place: u32) -> u16 {
        self.webs
            .at_places
            .get(place as usize)
            .copied()
            .unwrap_or(0)
    }

    /// What is live before a node.
    fn note_places(&mut self, node: u16) -> Result<(), NoMemory> {
        let span = self.places.before(node);
        for place in span.from..span.end {
            let web = self.web_at(place);
            self.classes.lives.add(web, node)?;
        }
        Ok(())
    }

    /// What is live behind a call, but for its result, is live over it.
    fn note_kept(&mut self, behind: u16, given: Option<u16>) {
        let span = self.places.before(behind);
        for place in span.from..span.end {
            let web = self.web_at(place);
            if Some(web) != given {
                self.classes.keep(web);
            }
        }
    }

    fn weigh_arguments(&mut self, arguments: &Arguments, weight: u64) {
        match *arguments {
            Arguments::One(first) => self.classes.weigh(first, weight),
            Arguments::Two(first, second) => {
                self.classes.weigh(first, weight);
                self.classes.weigh(second, weight);
            }
        }
    }

    fn weigh_act(&mut self, act: &Act, weight: u64) {
        match act {
            Act::Nop | Act::Constant { .. } => {}
            Act::Move { source, .. } | Act::Put { source, .. } => {
                self.classes.weigh(*source, weight);
            }
            Act::Operate { arguments, .. } => self.weigh_arguments(arguments, weight),
            Act::Load { index, .. } => self.classes.weigh(*index, weight),
            Act::Store { index, source, .. } => {
                self.classes.weigh(*index, weight);
                self.classes.weigh(*source, weight);
            }
        }
    }

    /// What the instruction uses; arguments of calls may lie anywhere, and count once a call.
    fn weigh_uses(&mut self, instruction: &Instruction, weight: u64) {
        match instruction {
            Instruction::Do { act, .. } => self.weigh_act(act, weight),
            Instruction::Call { .. } => {}
            Instruction::Branch { test, .. } => self.weigh_arguments(&test.arguments, weight),
            Instruction::Return { value } => {
                if let Some(register) = value {
                    self.classes.weigh(*register, weight);
                }
            }
        }
    }

    /// What the instruction defines. What nobody uses may not lie where anything is live behind it.
    fn note_definition(
        &mut self,
        node: u16,
        instruction: &Instruction,
        weight: u64,
        is_used: bool,
    ) -> Result<(), NoMemory> {
        let Some((web, behind)) = definition_of(instruction) else {
            return Ok(());
        };
        self.classes.weigh(web, weight);
        self.classes.definitions.add(web, node)?;
        if !is_used {
            self.classes.lives.add(web, behind)?;
        }
        Ok(())
    }

    /// All of a node: its instruction, and the same with webs in the place of registers.
    fn note(
        &mut self,
        node: u16,
        instruction: &Instruction,
        by_webs: &Instruction,
    ) -> Result<(), NoMemory> {
        let weight = weight_at(self.depths, node);
        self.note_places(node)?;
        self.weigh_uses(by_webs, weight);
        let is_used = match definition_of(instruction) {
            Some((register, behind)) => self.places.find(behind, register).is_some(),
            None => true,
        };
        if is_used || !may_be_left_out(instruction) {
            self.note_definition(node, by_webs, weight, is_used)?;
        }
        if let Instruction::Call { successor, .. } = by_webs {
            self.note_kept(*successor, defined_by(by_webs));
        }
        Ok(())
    }

    /// Parameters lie apart at the entry, used or not.
    fn note_parameters(&mut self, input: &Function) -> Result<(), NoMemory> {
        let entry = input.entry();
        for (parameter, web) in input
            .parameters()
            .as_slice()
            .iter()
            .zip(self.webs.parameters.iter())
        {
            if self.places.find(entry, *parameter).is_none() {
                self.classes.lives.add(*web, entry)?;
            }
        }
        Ok(())
    }
}

/// The webs, each a class of its own.
pub(crate) fn classes_of(
    alloc: Global,
    input: &Function,
    places: &Places,
    webs: &Webs,
    by_webs: &[Instruction],
    depths: &[u8],
) -> Result<Classes, NoMemory> {
    let mut gathering = Gathering {
        places,
        webs,
        depths,
        classes: Classes::alone(alloc, webs.count)?,
    };
    let nodes = input.nodes().as_slice();
    for (node, (instruction, named)) in (0..=u16::MAX).zip(nodes.iter().zip(by_webs.iter())) {
        gathering.note(node, instruction, named)?;
    }
    gathering.note_parameters(input)?;
    let Gathering { classes, .. } = gathering;
    Ok(classes)
}
