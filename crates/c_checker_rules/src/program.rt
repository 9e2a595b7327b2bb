use c_program::{Function, GlobalVariable};
use std::marker::Model;

/// The program of a well formed text: its globals, its functions in the order of their definitions, and which
/// of them is `main`.
#[derive(Drop)]
pub struct CProgram {
    globals: Vec<GlobalVariable>,
    functions: Vec<Function>,
    main: usize,
}

impl Model for CProgram {
    ghost use Rattle.std.specs.Coded.{codes};
    ghost use Rattle.c_program.specs.contracts.action.Action as a;
    ghost use Rattle.c_checker_rules.specs.Checked.{Contents, program_tree, IsChecked};

    ghost Value = { Contents };

    ghost coded = { Prim.hlevel (codes, a.the_row.coded) };

    ghost view = { λ p. record { globals = p.globals.items; functions = p.functions.items; main = p.main } };

    ghost invariant = { λ p. IsChecked (program_tree (record { globals = p.globals.items; functions = p.functions.items; main = p.main })) };
}

impl CProgram {
    ghost use Rattle.std.specs.Prelude.{◌≡◌};
    ghost use Rattle.c_checker_rules.specs.Checked.{program_tree, IsChecked};

    /// The program of these parts.
    pub fn new(globals: Vec<GlobalVariable>, functions: Vec<Function>, main: usize) -> CProgram
        requires { IsChecked (program_tree (record { globals = globals.items; functions = functions.items; main = main })) }
        ensures { result ≡ record { globals = globals.items; functions = functions.items; main = main } }
    {
        CProgram {
            globals,
            functions,
            main,
        }
    }

    /// The global variables, in the order of the text.
    pub fn globals(&self) -> &[GlobalVariable]
        ensures { result.now ≡ self.now.globals }
    {
        self.globals.as_slice()
    }

    /// The functions with bodies, in the order of the text.
    pub fn functions(&self) -> &[Function]
        ensures { result.now ≡ self.now.functions }
    {
        self.functions.as_slice()
    }

    /// The number of `main` among the functions.
    pub fn main(&self) -> usize
        ensures { result ≡ self.now.main }
    {
        self.main
    }

    /// What is known of every checked program.
    pub fn known(&self)
        ensures { IsChecked (program_tree self.now) }
    {
        let _known = self.main;
    }
}
