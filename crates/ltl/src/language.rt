use crate::copying::copy_function;
use crate::function::Function;
use crate::reading::read_function;
use crate::writing::push_function;
use lang_base::{FormError, Language, NoMemory};
use lang_helpers::{Form, read_front, write_whole};
use std::alloc::Global;

/// LTL, the third language of the pipeline.
pub struct Ltl;

impl Form for Ltl {
    ghost use Rattle.lang_base.specs.Reading.{Reads};
    ghost use Rattle.lang_base.specs.Texts.{Appends};
    ghost use Rattle.ltl.specs.Forms.{function_form};
    ghost use Rattle.ltl.specs.Function.{IsFunction};
    ghost use Rattle.ltl.specs.Reading.{function};
    ghost use Rattle.ltl.specs.Spelling.{spelling};

    type Value = Function;

    ghost reading = { function };

    ghost text = { spelling };

    ghost in_range = { IsFunction };

    fn read_next(alloc: Global, bytes: &mut &[u8]) -> Result<Function, FormError> {
        read_function(alloc, bytes)
    }

    fn push(out: &mut Vec<u8>, value: &Function) -> Result<(), NoMemory> {
        push_function(out, value)
    }

    ghost form = { function_form };
}

impl Language for Ltl {
    ghost use Rattle.std.specs.Prelude.{◌≡◌, ◌≢◌, ◌≤◌, ℕ, List, ◌++◌, length, take, true, ◌↔◌, OnOk, OnErr, IfOk, IfErr};
    ghost use Rattle.lang_base.proofs.Forms.{one_text};
    ghost use Rattle.lang_helpers.proofs.Equal.{tells_decides};
    ghost use Rattle.ltl.specs.Equal.{same_laws, function_tells};
    ghost use Rattle.ltl.specs.Forms.{function_form};
    ghost use Rattle.ltl.specs.Function.{IsFunction};
    ghost use Rattle.ltl.specs.Growth.{runs_on};
    ghost use Rattle.ltl.specs.Meaning.{run};
    ghost use Rattle.ltl.specs.Spelling.{spelling};

    type Fun = Function;

    const TAG: u8 = 3;

    ghost TAG = { 3 };

    ghost fits = { IsFunction };

    ghost spelling = { spelling };

    ghost run = { run };

    fn known(function: &Function) {
        let _blocks = function.blocks();
    }

    fn copy(alloc: Global, function: &Function) -> Result<Function, NoMemory> {
        copy_function(alloc, function)
    }

    fn write(function: &Function, out: &mut Vec<u8>) -> Result<(), NoMemory> {
        write_whole::<Ltl>(function, out)
    }

    fn read(alloc: Global, bytes: &[u8]) -> Result<(Function, usize), FormError> {
        read_front::<Ltl>(alloc, bytes)
    }

    ghost one_spelling = { λ f g x y fits also e. one_text function_form f g x y fits also e };

    ghost runs_on = { runs_on };

    ghost eq_decides = { tells_decides same_laws function_tells };
}
