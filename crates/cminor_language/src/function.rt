use cminor_syntax::Statement;
use std::marker::Model;

/// A function: how many parameters it takes, how many variables it has, of which they are the first, and its
/// body. Every part is in range, and the body is at most 1,000 high.
#[derive(Drop)]
pub struct Function {
    parameters: u8,
    variables: u16,
    body: Statement,
}

impl Model for Function {
    ghost use Rattle.std.specs.Coded.{Coded, codes};
    ghost use Rattle.cminor_syntax.specs.Codes.{ExpressionNode, StatementNode, expression_code, statement_code};
    ghost use Rattle.cminor_syntax.specs.Fits.{IsFunction};
    ghost use Rattle.cminor_syntax.specs.Trees.{ExpressionTree, StatementTree, FunctionTree};
    ghost use Rattle.cminor_syntax.specs.Views.{statement_tree};

    ghost Value = { FunctionTree };

    ghost coded = { let n : Coded ExpressionNode = Prim.hlevel codes in
        let e : Coded ExpressionTree = expression_code n in
        let m : Coded StatementNode = Prim.hlevel (codes, e) in
        let s : Coded StatementTree = statement_code m in
        Prim.hlevel (codes, s) };

    ghost view = { λ f. record { parameters = f.parameters; variables = f.variables; body = statement_tree f.body } };

    ghost invariant = { λ f. IsFunction (record { parameters = f.parameters; variables = f.variables; body = statement_tree f.body }) };
}

impl Function {
    ghost use Rattle.std.specs.Prelude.{◌≡◌};
    ghost use Rattle.cminor_syntax.specs.Fits.{IsFunction};
    ghost use Rattle.cminor_syntax.specs.Views.{statement_tree};

    /// The function of these parts, which are in range.
    pub fn new(parameters: u8, variables: u16, body: Statement) -> Function
        requires { IsFunction (record { parameters = parameters; variables = variables; body = statement_tree body }) }
        ensures { result ≡ record { parameters = parameters; variables = variables; body = statement_tree body } }
    {
        Function {
            parameters,
            variables,
            body,
        }
    }

    /// How many parameters it takes.
    pub fn parameters(&self) -> u8
        ensures { result ≡ self.now.parameters }
    {
        self.parameters
    }

    /// How many variables it has. The parameters are the first of them.
    pub fn variables(&self) -> u16
        ensures { result ≡ self.now.variables }
    {
        self.variables
    }

    /// What it does.
    pub fn body(&self) -> &Statement
        ensures tree { statement_tree result.now ≡ self.now.body }
        ensures in_range { IsFunction self.now }
    {
        &self.body
    }
}
