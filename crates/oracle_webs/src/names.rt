//! Instructions with webs in the place of registers.

ghost use Rattle.std.specs.Prelude.{◌≡◌, ◌<◌, ℕ, All, IfOk, length};
ghost use Rattle.rtl_acts.specs.Fits.{ArgumentsFit, ActFits, RegisterFits, TargetFits, TestFits};
ghost use Rattle.rtl_language.specs.Function.{CallFits, InstructionFits};

use crate::places::Places;
use crate::webs::Webs;
use lang_base::{NoMemory, Row};
use rtl_acts::{Act, Arguments, Register, Test};
use rtl_language::Instruction;
use std::alloc::Global;

/// The names at a node.
#[derive(Clone, Copy)]
struct Names<'a> {
    pub places: &'a Places,
    pub webs: &'a Webs,
    pub node: u16,
}

impl Names<'_> {
    /// The web that a register is before the node, 0 where it is not live.
    fn used(&self, register: Register) -> u16
        ensures { result < 65536 }
    {
        match self.places.find(self.node, register) {
            None => 0,
            Some(place) => self
                .webs
                .at_places
                .get(place as usize)
                .copied()
                .unwrap_or(0),
        }
    }

    /// The web that the node defines.
    fn defined(&self) -> u16
        ensures { result < 65536 }
    {
        self.webs
            .defined
            .get(usize::from(self.node))
            .copied()
            .unwrap_or(0)
    }

    fn arguments(&self, arguments: &Arguments) -> Arguments
        ensures { (registers count : ℕ) → ArgumentsFit registers count arguments.now → ArgumentsFit 65536 count result }
    {
        match *arguments {
            Arguments::One(first) => Arguments::One(self.used(first)),
            Arguments::Two(first, second) => Arguments::Two(self.used(first), self.used(second)),
        }
    }

    fn target(&self, target: Option<Register>) -> Option<Register>
        ensures { TargetFits 65536 result }
    {
        match target {
            None => None,
            Some(_) => Some(self.defined()),
        }
    }

    fn value(&self, value: Option<Register>) -> Option<Register>
        ensures { TargetFits 65536 result }
    {
        match value {
            None => None,
            Some(register) => Some(self.used(register)),
        }
    }

    fn act(&self, act: &Act) -> Act
        ensures { (registers : ℕ) → ActFits registers act.now → ActFits 65536 result }
    {
        match act {
            Act::Nop => Act::Nop,
            Act::Constant { word, .. } => Act::Constant {
                target: self.defined(),
                word: *word,
            },
            Act::Move { source, .. } => Act::Move {
                target: self.defined(),
                source: self.used(*source),
            },
            Act::Operate { op, arguments, .. } => Act::Operate {
                op: *op,
                target: self.defined(),
                arguments: self.arguments(arguments),
            },
            Act::Load { global, index, .. } => Act::Load {
                target: self.defined(),
                global: *global,
                index: self.used(*index),
            },
            Act::Store {
                global,
                index,
                source,
            } => Act::Store {
                global: *global,
                index: self.used(*index),
                source: self.used(*source),
            },
            Act::Put { source, target } => Act::Put {
                source: self.used(*source),
                target: self.target(*target),
            },
        }
    }

    fn test(&self, test: &Test) -> Test
        ensures { (registers : ℕ) → TestFits registers test.now → TestFits 65536 result }
    {
        Test {
            condition: test.condition,
            arguments: self.arguments(&test.arguments),
        }
    }

    fn each(&self, alloc: Global, registers: &[Register]) -> Result<Row<Register>, NoMemory>
        ensures count { IfOk result (λ made. length made ≡ length registers.now) }
        ensures fit { IfOk result (All (RegisterFits 65536)) }
    {
        let mut made = Vec::new(alloc);
        for register in registers {
            made.push(self.used(*register))?;
        }
        Ok(Row::from_vec(made))
    }

    fn call(
        &self,
        alloc: Global,
        function: u8,
        arguments: &[Register],
        target: Option<Register>,
        successor: u16,
    ) -> Result<Instruction, NoMemory>
        ensures { (registers nodes : ℕ) → CallFits registers function arguments.now target → successor < nodes →
            IfOk result (InstructionFits 65536 nodes) }
    {
        let named = self.each(alloc, arguments)?;
        Ok(Instruction::Call {
            function,
            arguments: named,
            target: self.target(target),
            successor,
        })
    }

    /// The instruction with webs in the place of registers.
    fn renamed(&self, alloc: Global, instruction: &Instruction) -> Result<Instruction, NoMemory>
        ensures { (registers nodes : ℕ) → InstructionFits registers nodes instruction.now →
            IfOk result (InstructionFits 65536 nodes) }
    {
        match instruction {
            Instruction::Do { act, successor } => Ok(Instruction::Do {
                act: self.act(act),
                successor: *successor,
            }),
            Instruction::Call {
                function,
                arguments,
                target,
                successor,
            } => self.call(alloc, *function, arguments.as_slice(), *target, *successor),
            Instruction::Branch { test, taken, other } => Ok(Instruction::Branch {
                test: self.test(test),
                taken: *taken,
                other: *other,
            }),
            Instruction::Return { value } => Ok(Instruction::Return {
                value: self.value(*value),
            }),
        }
    }
}

/// The instructions of the nodes, with webs in the place of registers.
pub fn all_renamed(
    alloc: Global,
    places: &Places,
    webs: &Webs,
    nodes: &[Instruction],
) -> Result<Vec<Instruction>, NoMemory>
    ensures count { IfOk result (λ made. length made.items ≡ length nodes.now) }
    ensures fit { (registers count : ℕ) → All (InstructionFits registers count) nodes.now →
        IfOk result (λ made. All (InstructionFits 65536 count) made.items) }
{
    let mut made = Vec::new(alloc);
    for (n, instruction) in nodes.iter().enumerate() {
        let node = u16::try_from(n).unwrap_or(0);
        let names = Names { places, webs, node };
        made.push(names.renamed(alloc, instruction)?)?;
    }
    Ok(made)
}
