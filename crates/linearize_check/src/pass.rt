use crate::base::baseline;
use crate::form::{push_order, read_order};
use crate::order::Order;
use crate::verdict::check;
use lang_base::{FormError, NoMemory, Pass, PassError};
use linear_language::Linear;
use ltl::Ltl;
use std::alloc::Global;

/// Pass 4: a function's blocks are laid out as code in an order.
pub struct Linearize;

impl Pass for Linearize {
    ghost use Rattle.std.specs.Prelude.{◌≡◌, ◌≢◌, ◌≤◌, ℕ, List, ◌++◌, length, take, IsTrue, ◌↔◌, OnOk, OnErr, IfOk, IfErr};
    ghost use Rattle.linearize_check_proof.specs.Rules.{IsLaidOut};
    ghost use Rattle.linearize_check.specs.OrderForm.{CertFits, cert_text};
    ghost use Rattle.linearize_check.specs.Baseline.{IsBaseline};
    ghost use Rattle.linearize_check.specs.PassLaws.{laid_out_fits, one_order, sound_law, never};

    type In = Ltl;

    type Out = Linear;

    type Cert = Order;

    const NUMBER: u8 = 4;

    ghost NUMBER = { 4 };

    ghost accepts = { IsLaidOut };

    ghost cert_fits = { λ i o c. CertFits i c };

    ghost cert_spelling = { λ i o c. cert_text c };

    ghost too_large = { never };

    fn check(
        alloc: Global,
        input: &ltl::Function,
        output: &linear_language::Function,
        order: &Order,
    ) -> Result<bool, NoMemory> {
        check(alloc, input, output, order)
    }

    fn baseline(
        alloc: Global,
        input: &ltl::Function,
    ) -> Result<(linear_language::Function, Order), PassError>
        ensures accepted { IfOk result (λ made. IsLaidOut input.now made.0 made.1) }
        ensures refused { IfErr result (λ e. e ≢ PassError.NoMemory → never input.now) }
        ensures is { IfOk result (λ made. IsBaseline input.now made.0 made.1) }
    {
        Ok(baseline(alloc, input)?)
    }

    fn write_cert(
        _input: &ltl::Function,
        _output: &linear_language::Function,
        order: &Order,
        out: &mut Vec<u8>,
    ) -> Result<(), NoMemory> {
        let length = out.len();
        let written = push_order(out, order.as_slice());
        if written.is_err() {
            out.truncate(length);
        }
        written
    }

    fn read_cert(
        alloc: Global,
        input: &ltl::Function,
        _output: &linear_language::Function,
        bytes: &[u8],
    ) -> Result<(Order, usize), FormError> {
        let nodes = input.blocks().len() as u32;
        let mut rest = bytes;
        let listed = read_order(alloc, nodes, &mut rest)?;
        Ok((Order::from_vec(listed), bytes.len() - rest.len()))
    }

    ghost sound = { sound_law };

    ghost accepted_fits = { laid_out_fits };

    ghost one_cert = { one_order };
}
