ghost use Rattle.std.specs.Prelude.{◌≡◌, ◌<◌, ◌≤◌};

/// An operator on one or two words. Where the name ends in `S` the words are read as `int`, and where
/// it ends in `U` as `unsigned int` (C99 6.5.3.3 to 6.5.9).
#[derive(Clone, Copy, Debug, PartialEq, Eq, Hash)]
pub enum Op {
    /// `-x`
    NegS = 1,
    NegU,
    /// `~x`
    Not,
    /// `!x`
    IsZero,
    AddS,
    AddU,
    SubS,
    SubU,
    MulS,
    MulU,
    /// A quotient, cut toward zero.
    DivS,
    DivU,
    /// The remainder that goes with that quotient.
    ModS,
    ModU,
    And,
    Or,
    Xor,
    ShlS,
    ShlU,
    /// A shift to the right: rounded down, so that it keeps the sign.
    ShrS,
    ShrU,
    Eq,
    Ne,
    LtS,
    LtU,
    LeS,
    LeU,
}

/// The operators, in the order of their codes.
const OPERATORS: [Op; 27] = [
    Op::NegS,
    Op::NegU,
    Op::Not,
    Op::IsZero,
    Op::AddS,
    Op::AddU,
    Op::SubS,
    Op::SubU,
    Op::MulS,
    Op::MulU,
    Op::DivS,
    Op::DivU,
    Op::ModS,
    Op::ModU,
    Op::And,
    Op::Or,
    Op::Xor,
    Op::ShlS,
    Op::ShlU,
    Op::ShrS,
    Op::ShrU,
    Op::Eq,
    Op::Ne,
    Op::LtS,
    Op::LtU,
    Op::LeS,
    Op::LeU,
];

impl Op {
    ghost use Rattle.ints.specs.Codes.{code_of, argument_count_of, op_of_code};

    /// The number, from 1 to 27, that stands for the operator in written forms.
    #[tactic(auto, unfolding(crate::specs::Codes::code_of))]
    pub fn code(self) -> u8
        ensures value { result ≡ code_of self }
        ensures range { (0 < result) × (result ≤ 27) }
    {
        self as u8
    }

    /// 1 or 2.
    #[tactic(auto, unfolding(crate::specs::Codes::argument_count_of))]
    pub fn argument_count(self) -> usize
        ensures value { result ≡ argument_count_of self }
        ensures range { (0 < result) × (result ≤ 2) }
    {
        match self {
            Op::NegS | Op::NegU | Op::Not | Op::IsZero => 1,
            _ => 2,
        }
    }

    /// The operator with this code.
    #[tactic(auto, unfolding(crate::specs::Codes::op_of_code))]
    pub fn from_code(code: u8) -> Option<Op>
        ensures { result ≡ op_of_code code }
    {
        let code = usize::from(code);
        if 1 <= code && code <= OPERATORS.len() {
            Some(OPERATORS[code - 1])
        } else {
            None
        }
    }
}
