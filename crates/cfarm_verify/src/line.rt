//! How a program that is not verified is told.

ghost use Rattle.std.specs.Prelude.{◌≡◌};

use crate::error::VerifyError;
use bundle_offers::OfferFault;
use cfarm_output::FormLineIn;
use lang_base::Fault;
use std::fmt;

/// An offer's fault, with the name of its function.
#[derive(Drop)]
struct FaultIn<'a>(OfferFault, &'a str);

impl<'a> fmt::Display for FaultIn<'a> {
    ghost use Rattle.std.specs.Prelude.{Some};
    ghost use Rattle.cfarm_verify.specs.Lines.{fault_line_in};

    ghost output = { λ l. Some (fault_line_in l.0 l.1.now) };

    fn fmt<W: fmt::Write>(&self, f: &mut fmt::Formatter<W>) -> fmt::Result {
        let name = self.1;
        match self.0 {
            OfferFault::NoMemory => write!(f, "memory"),
            OfferFault::Unchained(pass) => {
                let number = pass.number();
                write!(f, "refused 602 Unchained in {name} pass {number}")
            }
            OfferFault::Refused(pass, Fault::Shape) => {
                let number = pass.number();
                write!(f, "refused 301 Refused in {name} pass {number} shape")
            }
            OfferFault::Refused(pass, Fault::Node(node)) => {
                let number = pass.number();
                write!(f, "refused 301 Refused in {name} pass {number} node {node}")
            }
        }
    }
}

/// The line that a user is shown, with the paths of the program's file and the bundle's.
#[derive(Drop)]
pub struct VerifyLine<'a> {
    pub fault: VerifyError,
    pub program: &'a str,
    pub bundle: &'a str,
}

impl<'a> fmt::Display for VerifyLine<'a> {
    ghost use Rattle.std.specs.Prelude.{Some};
    ghost use Rattle.cfarm_verify.specs.Lines.{verify_line};

    ghost output = { λ l. Some (verify_line l.fault l.program.now l.bundle.now) };

    fn fmt<W: fmt::Write>(&self, f: &mut fmt::Formatter<W>) -> fmt::Result {
        let (program, bundle) = (self.program, self.bundle);
        match &self.fault {
            VerifyError::NoMemory => write!(f, "memory"),
            VerifyError::Source(fault) => write!(f, "{fault}"),
            VerifyError::Program(fault) => {
                let line = FormLineIn(*fault, program);
                write!(f, "{line}")
            }
            VerifyError::Bundle(fault) => {
                let line = FormLineIn(*fault, bundle);
                write!(f, "{line}")
            }
            VerifyError::OtherSource => write!(f, "refused 404 OtherSource in {bundle}"),
            VerifyError::ProgramNames => write!(f, "refused 603 Names in {program}"),
            VerifyError::BundleNames => write!(f, "refused 603 Names in {bundle}"),
            VerifyError::Offer(fault, name) => {
                let line = FaultIn(*fault, name.as_str());
                write!(f, "{line}")
            }
            VerifyError::OtherFunction(name) => { write!(f, "refused 604 OtherProgram in {name}") }
            VerifyError::OtherGlobals => write!(f, "refused 604 OtherProgram in {program}"),
            VerifyError::Write => write!(f, "write 701"),
        }
    }
}
