//! The words that a line is told by.

ghost use Rattle.std.specs.Prelude.{◌≡◌};
ghost use Rattle.text_keys.specs.Keys.{operator_name, key_text, condition_key};

use ints::{Cond, Op};

/// A word that says what is done, or that stands between others.
#[derive(Clone, Copy)]
pub enum Key {
    Operator(Op),
    /// `constant`
    Constant,
    /// `move`
    Move,
    /// `load`
    Load,
    /// `store`
    Store,
    /// `call`
    Call,
    /// `put`
    Put,
    /// `if`
    If,
    /// `Nz`
    NonZero,
    /// `return`
    Return,
    /// `label`
    Label,
    /// `goto`
    Goto,
    /// `nothing`
    Nothing,
    /// `slots`
    Slots,
    /// `registers`
    Registers,
    /// `variables`
    Variables,
    /// `entry`
    Entry,
    /// `=`
    Is,
    /// `->`
    Then,
    /// `[`
    Opens,
    /// `]`
    Closes,
    /// `choose`
    Choose,
    /// `skip`
    Skip,
    /// `loop`
    Loop,
    /// `block`
    Block,
    /// `exit`
    Exit,
    /// `sequence`
    Sequence,
    /// `row`
    Row,
    /// `(`
    Start,
    /// `)`
    Stop,
    /// `end`
    End,
}

/// The name of an operator.
fn operator_name(op: Op) -> &'static [u8]
    ensures { result.now ≡ operator_name op }
{
    match op {
        Op::NegS => b"NegS",
        Op::NegU => b"NegU",
        Op::Not => b"Not",
        Op::IsZero => b"IsZero",
        Op::AddS => b"AddS",
        Op::AddU => b"AddU",
        Op::SubS => b"SubS",
        Op::SubU => b"SubU",
        Op::MulS => b"MulS",
        Op::MulU => b"MulU",
        Op::DivS => b"DivS",
        Op::DivU => b"DivU",
        Op::ModS => b"ModS",
        Op::ModU => b"ModU",
        Op::And => b"And",
        Op::Or => b"Or",
        Op::Xor => b"Xor",
        Op::ShlS => b"ShlS",
        Op::ShlU => b"ShlU",
        Op::ShrS => b"ShrS",
        Op::ShrU => b"ShrU",
        Op::Eq => b"Eq",
        Op::Ne => b"Ne",
        Op::LtS => b"LtS",
        Op::LtU => b"LtU",
        Op::LeS => b"LeS",
        Op::LeU => b"LeU",
    }
}

/// The bytes of a key.
pub fn key_text(key: Key) -> &'static [u8]
    ensures { result.now ≡ key_text key }
{
    match key {
        Key::Operator(op) => operator_name(op),
        Key::Constant => b"constant",
        Key::Move => b"move",
        Key::Load => b"load",
        Key::Store => b"store",
        Key::Call => b"call",
        Key::Put => b"put",
        Key::If => b"if",
        Key::NonZero => b"Nz",
        Key::Return => b"return",
        Key::Label => b"label",
        Key::Goto => b"goto",
        Key::Nothing => b"nothing",
        Key::Slots => b"slots",
        Key::Registers => b"registers",
        Key::Variables => b"variables",
        Key::Entry => b"entry",
        Key::Is => b"=",
        Key::Then => b"->",
        Key::Opens => b"[",
        Key::Closes => b"]",
        Key::Choose => b"choose",
        Key::Skip => b"skip",
        Key::Loop => b"loop",
        Key::Block => b"block",
        Key::Exit => b"exit",
        Key::Sequence => b"sequence",
        Key::Row => b"row",
        Key::Start => b"(",
        Key::Stop => b")",
        Key::End => b"end",
    }
}

/// A condition has the name of the operator that it is, but for the one of one argument.
pub fn condition_key(condition: Cond) -> Key
    ensures { result ≡ condition_key condition }
{
    match condition {
        Cond::Nz => Key::NonZero,
        Cond::Eq => Key::Operator(Op::Eq),
        Cond::Ne => Key::Operator(Op::Ne),
        Cond::LtS => Key::Operator(Op::LtS),
        Cond::LtU => Key::Operator(Op::LtU),
        Cond::LeS => Key::Operator(Op::LeS),
        Cond::LeU => Key::Operator(Op::LeU),
    }
}
