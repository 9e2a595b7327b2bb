//! Functions: a first line, and the lines of the body.

ghost use Rattle.std.specs.Prelude.{◌≡◌};
ghost use Rattle.lang_base.specs.Texts.{Appends};
ghost use Rattle.text_cminor.specs.Shown.{variable_word, parameters_of, shown_named, shown_under};

use crate::statement::push_statement;
use cminor_language::Function;
use lang_base::{Named, NoMemory};
use lang_helpers::WriteOne;
use text_keys::{Key, Letter, SpacedWord, Word, end_line, push_count, push_head};

/// The variables that may be parameters.
const FIRST: [u16; 16] = [0, 1, 2, 3, 4, 5, 6, 7, 8, 9, 10, 11, 12, 13, 14, 15];

/// A variable has a word.
struct Variable;

impl SpacedWord for Variable {
    type Item = u16;

    ghost word = { variable_word };

    fn word(item: &u16) -> Word {
        Word::Lettered(Letter::Variable, u64::from(*item))
    }
}

/// The parameters are the first variables.
fn parameters_of(function: &Function) -> &'static [u16]
    ensures { result.now ≡ parameters_of function.now }
{
    let _body = function.body();
    &FIRST[..usize::from(function.parameters())]
}

/// Writes the text of a function under a name.
pub fn push_named(out: &mut Vec<u8>, name: &[u8], function: &Function) -> Result<(), NoMemory>
    ensures { Appends result (shown_under name.now function.now) out.old.items out.new.items }
{
    push_head::<Variable>(out, name, parameters_of(function))?;
    push_count(out, Key::Variables, function.variables())?;
    end_line(out)?;
    push_statement(out, function.body())
}

/// The text of a function and its name.
pub(crate) struct Shown;

impl WriteOne for Shown {
    type Item = Named<Function>;

    ghost text = { shown_named };

    fn push(out: &mut Vec<u8>, item: &Named<Function>) -> Result<(), NoMemory> {
        push_named(out, item.name.as_slice(), &item.function)
    }
}
