//! How an offer that is not accepted is told.

ghost use Rattle.std.specs.Prelude.{◌≡◌};

use crate::error::JudgeError;
use bundle_offers::PassNumber;
use cfarm_output::FormLineIn;
use lang_base::Fault;
use std::fmt;

/// Why a pass does not accept an offer.
#[derive(Drop)]
struct RefusedLine(PassNumber, Fault);

impl fmt::Display for RefusedLine {
    ghost use Rattle.std.specs.Prelude.{Some};
    ghost use Rattle.cfarm_judge.specs.Lines.{refused_line};

    ghost output = { λ l. Some (refused_line l.0 l.1) };

    fn fmt<W: fmt::Write>(&self, f: &mut fmt::Formatter<W>) -> fmt::Result {
        let number = self.0.number();
        match self.1 {
            Fault::Shape => write!(f, "refused 301 Refused pass {number} shape"),
            Fault::Node(node) => write!(f, "refused 301 Refused pass {number} node {node}"),
        }
    }
}

/// The line that a user is shown, with the name of the function and the path of the offer's file.
#[derive(Drop)]
pub struct JudgeLine<'a> {
    pub fault: JudgeError,
    pub name: &'a str,
    pub path: &'a str,
}

impl<'a> fmt::Display for JudgeLine<'a> {
    ghost use Rattle.std.specs.Prelude.{Some};
    ghost use Rattle.cfarm_judge.specs.Lines.{judge_line};

    ghost output = { λ l. Some (judge_line l.fault l.name.now l.path.now) };

    fn fmt<W: fmt::Write>(&self, f: &mut fmt::Formatter<W>) -> fmt::Result {
        let (name, path) = (self.name, self.path);
        match &self.fault {
            JudgeError::NoMemory => write!(f, "memory"),
            JudgeError::Source(fault) => write!(f, "{fault}"),
            JudgeError::NoFunction => write!(f, "refused 603 Names in {name}"),
            JudgeError::Form(fault) => {
                let line = FormLineIn(*fault, path);
                write!(f, "{line}")
            }
            JudgeError::Unchained => write!(f, "refused 602 Unchained"),
            JudgeError::Refused(pass, fault) => {
                let line = RefusedLine(*pass, *fault);
                write!(f, "{line}")
            }
            JudgeError::Write => write!(f, "write 701"),
        }
    }
}
