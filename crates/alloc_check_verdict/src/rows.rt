//! Certificates: rows of equations at marked nodes.

ghost use Rattle.std.specs.Prelude.{◌↔◌, IsTrue};
ghost use Rattle.rtl_passes_marks.specs.Marks.{AreFeeders};
ghost use Rattle.alloc_check_proof.specs.Right.{SameShape};
ghost use Rattle.alloc_check_proof.specs.Allocated.{HasForm};

use alloc_check_lists::is_in_order;
use alloc_check_proof::{push_equation, read_equation};
use alloc_check_rules::Equation;
use lang_base::{FormError, NoMemory, Row};
use rtl_passes_marks::{Entries, NodeRow, are_rows};

/// The certificate: at marked nodes the equations that hold there. Anybody may propose one, so nothing
/// is promised of it.
pub type EquationLists = Row<NodeRow<Equation>>;

/// How many registers an input has, and how many slots an output.
#[derive(Clone, Copy)]
pub struct Sizes {
    pub registers: u16,
    pub slots: u16,
}

/// Equations as what rows are made of.
pub struct Equations;

impl Entries for Equations {
    ghost use Rattle.std.specs.Prelude.{◌↔◌, ℕ, List, IsTrue};
    ghost use Rattle.lang_base.specs.Reading.{Reading, IsRead};
    ghost use Rattle.lang_base.specs.Texts.{Appends};
    ghost use Rattle.alloc_check_rules.specs.Rules.{IsInOrder};
    ghost use Rattle.alloc_check_proof.specs.Reading.{equation};
    ghost use Rattle.alloc_check_proof.specs.Text.{equation_text};

    type Entry = Equation;

    type Size = Sizes;

    ghost part = { λ sizes. equation sizes.registers sizes.slots };

    ghost text = { equation_text };

    ghost in_order = { λ sizes. IsInOrder sizes.registers sizes.slots };

    fn read_entry(size: Sizes, bytes: &mut &[u8]) -> Result<Equation, FormError> {
        read_equation(u32::from(size.registers), u32::from(size.slots), bytes)
    }

    fn push_entry(out: &mut Vec<u8>, entry: &Equation) -> Result<(), NoMemory> {
        push_equation(out, entry)
    }

    fn are_in_order(size: Sizes, entries: &[Equation]) -> bool {
        is_in_order(size.registers, size.slots, entries)
    }
}

fn has_same_shape(input: &rtl_language::Function, output: &ltl::Function) -> bool
    ensures { IsTrue result ↔ SameShape input.now output.now }
{
    output.parameters().len() == input.parameters().len()
        && output.entry() == input.entry()
        && output.blocks().len() == input.nodes().len()
}

/// Whether the parameters, the entry and the number of nodes agree, and the rows have their form.
pub(crate) fn has_form(
    input: &rtl_language::Function,
    output: &ltl::Function,
    feeders: &[Option<u16>],
    rows: &[NodeRow<Equation>],
) -> bool
    requires { AreFeeders input.now.entry input.now.nodes feeders.now }
    ensures { IsTrue result ↔ HasForm input.now output.now rows.now }
{
    let sizes = Sizes {
        registers: input.registers(),
        slots: output.slots(),
    };
    has_same_shape(input, output) && are_rows::<Equations>(sizes, input, feeders, rows)
}
