ghost use Rattle.std.specs.Prelude.{◌≡◌, [], ◌∷◌, length};
ghost use Rattle.ints.specs.Codes.{argument_count_of};
ghost use Rattle.ints.specs.MachineTable.{machine_table};

use crate::operators::Op;

/// What the machine gives: none at a division fault and at a shift by 32 or more.
#[tactic(auto, unfolding(crate::specs::Codes::argument_count_of))]
pub fn eval_m(op: Op, args: &[u32]) -> Option<u32>
    requires { length args.now ≡ argument_count_of op }
    ensures { result ≡ machine_table op args.now }
{
    if op.argument_count() == 1 {
        unary(op, args[0])
    } else {
        binary(op, args[0], args[1])
    }
}

#[tactic(auto, unfolding(crate::specs::MachineTable::machine_table))]
pub(crate) fn unary(op: Op, x: u32) -> Option<u32>
    ensures { result ≡ machine_table op (x ∷ []) }
{
    match op {
        Op::NegS | Op::NegU => Some(x.wrapping_neg()),
        Op::Not => Some(!x),
        Op::IsZero => Some(u32::from(x == 0)),
        _ => None,
    }
}

#[tactic(auto, using(crate::proofs::Wrapping::wrapped_products), unfolding(crate::specs::MachineTable::machine_table))]
pub(crate) fn binary(op: Op, x: u32, y: u32) -> Option<u32>
    ensures { result ≡ machine_table op (x ∷ y ∷ []) }
{
    let (a, b) = (x.cast_signed(), y.cast_signed());
    match op {
        Op::AddS | Op::AddU => Some(x.wrapping_add(y)),
        Op::SubS | Op::SubU => Some(x.wrapping_sub(y)),
        Op::MulS | Op::MulU => Some(x.wrapping_mul(y)),
        Op::DivS => a.checked_div(b).map(i32::cast_unsigned),
        Op::DivU => x.checked_div(y),
        Op::ModS => a.checked_rem(b).map(i32::cast_unsigned),
        Op::ModU => x.checked_rem(y),
        Op::And => Some(x & y),
        Op::Or => Some(x | y),
        Op::Xor => Some(x ^ y),
        Op::ShlS | Op::ShlU => x.checked_shl(y),
        Op::ShrS => a.checked_shr(y).map(i32::cast_unsigned),
        Op::ShrU => x.checked_shr(y),
        Op::Eq => Some(u32::from(x == y)),
        Op::Ne => Some(u32::from(x != y)),
        Op::LtS => Some(u32::from(a < b)),
        Op::LtU => Some(u32::from(x < y)),
        Op::LeS => Some(u32::from(a <= b)),
        Op::LeU => Some(u32::from(x <= y)),
        _ => None,
    }
}
