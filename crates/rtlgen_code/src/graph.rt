use lang_base::NoMemory;
use rtl_language::Instruction;
use std::alloc::Global;

/// The most nodes that can be numbered.
const MOST_NODES: usize = 65535;

/// A graph in the making: its nodes so far. It is full where nodes were left out, since there are more than can be
/// numbered; then the nodes and the places in it mean nothing.
#[derive(Drop)]
pub struct Graph {
    pub nodes: Vec<Instruction>,
    pub is_full: bool,
}

impl Graph {
    ghost use Rattle.std.specs.Prelude.{◌≡◌, [], ◌<◌, ◌≤◌, false, length, slice_set, IfOk};
    ghost use Rattle.rtlgen_definition.specs.Pieces.{one};
    ghost use Rattle.rtlgen_code.specs.Adding.{Adds};

    /// No nodes.
    pub fn new(alloc: Global) -> Graph
        ensures nodes { result.nodes.items ≡ [] }
        ensures space { result.is_full ≡ false }
    {
        Graph {
            nodes: Vec::new(alloc),
            is_full: false,
        }
    }

    /// One node more, and its number.
    pub fn add(&mut self, node: Instruction) -> Result<u16, NoMemory>
        ensures { IfOk result (λ entry. Adds (one (λ next. node)) 0 self.old self.new entry) }
    {
        let entry = self.nodes.len();
        if self.is_full || entry >= MOST_NODES {
            self.is_full = true;
            return Ok(0);
        }
        self.nodes.push(node)?;
        Ok(entry as u16)
    }
}
