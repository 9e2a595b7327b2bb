//! Operators on words: the frequent ones at once, the others by the table.

ghost use Rattle.std.specs.Prelude.{◌≡◌, [], ◌∷◌};
ghost use Rattle.c_program.specs.Values.{computed};

use ints::{Op, eval_c};

#[tactic(auto, unfolding(ints::specs::Codes::argument_count_of, ints::specs::CTable::c_table))]
pub fn on_one(op: Op, x: u32) -> Option<u32>
    ensures { result ≡ computed op (x ∷ []) }
{
    if op.argument_count() != 1 {
        return None;
    }
    eval_c(op, &[x]).ok()
}

#[inline(always)]
#[tactic(auto, unfolding(ints::specs::CTable::c_table))]
pub fn on_two(op: Op, x: u32, y: u32) -> Option<u32>
    ensures { result ≡ computed op (x ∷ y ∷ []) }
{
    match op {
        Op::AddS => sum(x, y),
        Op::SubS => difference(x, y),
        Op::AddU => Some(x.wrapping_add(y)),
        Op::SubU => Some(x.wrapping_sub(y)),
        Op::MulU => Some(x.wrapping_mul(y)),
        Op::DivU => x.checked_div(y),
        Op::ModU => x.checked_rem(y),
        Op::And => Some(x & y),
        Op::Or => Some(x | y),
        Op::Xor => Some(x ^ y),
        Op::Eq => Some(u32::from(x == y)),
        Op::Ne => Some(u32::from(x != y)),
        Op::LtS => Some(u32::from(x.cast_signed() < y.cast_signed())),
        Op::LeS => Some(u32::from(x.cast_signed() <= y.cast_signed())),
        Op::LtU => Some(u32::from(x < y)),
        Op::LeU => Some(u32::from(x <= y)),
        _ => by_table(op, x, y),
    }
}

/// `x + y` at `int`.
#[tactic(auto, unfolding(ints::specs::CTable::c_table))]
fn sum(x: u32, y: u32) -> Option<u32>
    ensures { result ≡ computed Op.AddS (x ∷ y ∷ []) }
{
    x.cast_signed()
        .checked_add(y.cast_signed())
        .map(i32::cast_unsigned)
}

/// `x - y` at `int`.
#[tactic(auto, unfolding(ints::specs::CTable::c_table))]
fn difference(x: u32, y: u32) -> Option<u32>
    ensures { result ≡ computed Op.SubS (x ∷ y ∷ []) }
{
    x.cast_signed()
        .checked_sub(y.cast_signed())
        .map(i32::cast_unsigned)
}

#[inline(never)]
#[tactic(auto, unfolding(ints::specs::Codes::argument_count_of, ints::specs::CTable::c_table))]
fn by_table(op: Op, x: u32, y: u32) -> Option<u32>
    ensures { result ≡ computed op (x ∷ y ∷ []) }
{
    if op.argument_count() != 2 {
        return None;
    }
    eval_c(op, &[x, y]).ok()
}
