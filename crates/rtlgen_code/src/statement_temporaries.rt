//! How many temporaries a statement has: each part begins anew.

ghost use Rattle.std.specs.Prelude.{◌≡◌, ◌<◌, All};
ghost use Rattle.cminor_syntax.specs.Trees as T;
ghost use Rattle.cminor_syntax.specs.Views.{statement_tree, statements_tree};
ghost use Rattle.rtlgen_definition.specs.Gen.{statement_needs, statements_need};

use crate::{needs, operands_need};
use cminor_syntax::Statement;

/// Where a sequence has few temporaries, so has each of its statements.
fn each_has_few(statements: &[Statement])
    requires { statement_needs (T.Sequence (statements_tree statements.now)) < 65536 }
    ensures { All (λ s. statement_needs (statement_tree s) < 65536) statements.now }
{}

/// Those of a statement. What calls itself does so at most as often as the statement is high.
#[cycle(counting)]
pub fn statement_needs(statement: &Statement) -> u16
    requires { statement_needs (statement_tree statement.now) < 65536 }
    ensures { result ≡ statement_needs (statement_tree statement.now) }
{
    match statement {
        Statement::Skip | Statement::Exit(_) | Statement::Return(None) => 0,
        Statement::Assign(_, value) | Statement::Return(Some(value)) => needs(value),
        Statement::Store(_, index, word) => needs(index).max(needs(word) + 1),
        Statement::Call(_, _, arguments) => operands_need(arguments.as_slice()),
        Statement::Put(_, word) => needs(word),
        Statement::Sequence(all) => {
            let all = all.as_slice();
            each_has_few(all);
            statements_need(all)
        }
        Statement::If(condition, then, other) => {
            needs(condition).max(statement_needs(then).max(statement_needs(other)))
        }
        Statement::Loop(body) | Statement::Block(body) => statement_needs(body),
    }
}

/// The most that one of the statements has.
#[cycle(counting)]
fn statements_need(statements: &[Statement]) -> u16
    requires { All (λ s. statement_needs (statement_tree s) < 65536) statements.now }
    ensures { result ≡ statements_need (statements_tree statements.now) }
{
    let mut most = 0;
    let mut index = statements.len();
    while index > 0 {
        index -= 1;
        most = statement_needs(&statements[index]).max(most);
    }
    most
}
