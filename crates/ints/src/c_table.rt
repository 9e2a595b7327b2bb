ghost use Rattle.std.specs.Prelude.{◌≡◌, [], ◌∷◌, length};
ghost use Rattle.std.specs.Option.{ok_or, option_map};
ghost use Rattle.std.specs.Int.{w32, cast_unsigned};
ghost use Rattle.ints.specs.Codes.{argument_count_of};
ghost use Rattle.ints.specs.CTable.{c_table};

use crate::machine_table;
use crate::operators::Op;
use crate::wrong::CWrong;

/// What C gives. Wrong are an `int` result that no `int` holds, a zero divisor, the least `int` by -1
/// under `/` and `%`, a shift by 32 or more, and `<<` of a negative `int`.
#[tactic(auto, unfolding(crate::specs::Codes::argument_count_of))]
pub fn eval_c(op: Op, args: &[u32]) -> Result<u32, CWrong>
    requires { length args.now ≡ argument_count_of op }
    ensures { result ≡ c_table op args.now }
{
    if op.argument_count() == 1 {
        unary(op, args[0])
    } else {
        binary(op, args[0], args[1])
    }
}

#[tactic(auto, unfolding(crate::specs::CTable::c_table, crate::specs::MachineTable::machine_table))]
fn unary(op: Op, x: u32) -> Result<u32, CWrong>
    ensures { result ≡ c_table op (x ∷ []) }
{
    match op {
        Op::NegS => word_of(x.cast_signed().checked_neg()),
        _ => machine_table::unary(op, x).ok_or(CWrong),
    }
}

#[tactic(auto, unfolding(crate::specs::CTable::c_table, crate::specs::MachineTable::machine_table))]
fn binary(op: Op, x: u32, y: u32) -> Result<u32, CWrong>
    ensures { result ≡ c_table op (x ∷ y ∷ []) }
{
    let (a, b) = (x.cast_signed(), y.cast_signed());
    match op {
        Op::AddS => word_of(a.checked_add(b)),
        Op::SubS => word_of(a.checked_sub(b)),
        Op::MulS => word_of(a.checked_mul(b)),
        Op::ShlS => shifted_left(x, y),
        _ => machine_table::binary(op, x, y).ok_or(CWrong),
    }
}

/// The word for an exact result, where there is one.
fn word_of(exact: Option<i32>) -> Result<u32, CWrong>
    ensures { result ≡ ok_or (option_map (cast_unsigned w32) exact) (record {}) }
{
    exact.map(i32::cast_unsigned).ok_or(CWrong)
}

/// `x << y` at `int`.
#[tactic(auto, unfolding(crate::specs::CTable::c_table))]
fn shifted_left(x: u32, y: u32) -> Result<u32, CWrong>
    ensures { result ≡ c_table Op.ShlS (x ∷ y ∷ []) }
{
    if y >= 32 {
        return Err(CWrong);
    }
    // The word of a negative `int` is past the greatest `int`, and so is its product.
    let product = u64::from(x) << y;
    if product >= 1 << 31 {
        return Err(CWrong);
    }
    Ok(product as u32)
}
