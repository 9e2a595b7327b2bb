//! What the blocks of a function are made for.

ghost use Rattle.std.specs.Prelude.{◌≡◌};

use crate::labels::{find_labels, find_named, flag};
use lang_base::{Global as Variable, Named, NoMemory, Program};
use linear_language::{Function, Instruction};
use native_lowering_frames::{Frame, find_frame};
use std::alloc::Global;
use std::marker::Model;

/// The program's functions and globals, the code and the frame of its function, and the labels that stand in the code or are named there.
#[derive(Drop)]
pub struct Around<'a> {
    functions: &'a [Named<Function>],
    globals: &'a [Variable],
    code: &'a [Instruction],
    frame: Frame,
    stands: Vec<bool>,
    named: Vec<bool>,
}

impl<'a> Model for Around<'a> {
    ghost use Rattle.std.specs.Prelude.{[]};
    ghost use Rattle.native_lowering_definition.specs.Blocks.{Around};
    ghost use Rattle.native_lowering_blocks.specs.Noted.{AreNoted, is_there, is_named};

    ghost Value = { Around };

    ghost view = { λ a. record { functions = a.functions.now; globals = a.globals.now; code = a.code.now; frame = a.frame } };

    ghost invariant = { λ a. AreNoted is_there [] a.code.now a.stands.items × AreNoted is_named [] a.code.now a.named.items };
}

impl<'a> Around<'a> {
    ghost use Rattle.std.specs.Prelude.{◌≡◌, IfOk, length};
    ghost use Rattle.std.specs.List.{list_any};
    ghost use Rattle.native_lowering_definition.specs.Blocks.{cells_in, arity_of, has_label};
    ghost use Rattle.native_lowering_definition.specs.Lowering.{names, around_of};

    /// What the blocks of this function are made for.
    pub fn of(
        alloc: Global,
        program: &'a Program<Function>,
        function: &'a Function,
    ) -> Result<Around<'a>, NoMemory>
        ensures { IfOk result (λ around. around ≡ around_of program.now function.now) }
    {
        let code = function.code().as_slice();
        let frame = find_frame(alloc, function)?;
        let stands = find_labels(alloc, code)?;
        let named = find_named(alloc, code)?;
        Ok(Around {
            functions: program.functions.as_slice(),
            globals: program.globals.as_slice(),
            code,
            frame,
            stands,
            named,
        })
    }

    /// The frame of the function.
    pub fn frame(&self) -> &Frame
        ensures { result.now ≡ self.now.frame }
    {
        &self.frame
    }

    /// The number of a global's cells, if it is there.
    pub fn cells_in(&self, global: u16) -> Option<u32>
        ensures { result ≡ cells_in self.now global }
    {
        match self.globals.get(usize::from(global)) {
            None => None,
            Some(variable) => Some(variable.cells),
        }
    }

    /// How many parameters a function takes, if it is there.
    pub fn arity_of(&self, function: u8) -> Option<usize>
        ensures { result ≡ arity_of self.now function }
    {
        match self.functions.get(usize::from(function)) {
            None => None,
            Some(named) => Some(named.function.parameters().len()),
        }
    }

    /// Whether a label stands in the code.
    pub fn has_label(&self, label: u16) -> bool
        ensures { result ≡ has_label self.now label }
    {
        flag(&self.stands, label)
    }

    /// Whether a jump or a branch of the code names it.
    pub fn is_named(&self, label: u16) -> bool
        ensures { result ≡ list_any (names label) self.now.code }
    {
        flag(&self.named, label)
    }
}
