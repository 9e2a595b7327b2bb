ghost use Rattle.std.specs.Prelude.{◌≡◌, ◌<◌, ◌≤◌};

/// A condition on words, which a branch tests.
#[derive(Clone, Copy, Debug, PartialEq, Eq, Hash)]
pub enum Cond {
    /// One word, which is not zero.
    Nz = 0,
    Eq,
    Ne,
    LtS,
    LtU,
    LeS,
    LeU,
}

impl Cond {
    ghost use Rattle.ints.specs.Conditions.{cond_code_of, cond_argument_count_of, cond_of_code};

    /// The number, from 0 to 6, that stands for the condition in written forms.
    #[tactic(auto, unfolding(crate::specs::Conditions::cond_code_of))]
    pub fn code(self) -> u8
        ensures value { result ≡ cond_code_of self }
        ensures range { result ≤ 6 }
    {
        self as u8
    }

    /// 1 or 2.
    #[tactic(auto, unfolding(crate::specs::Conditions::cond_argument_count_of))]
    pub fn argument_count(self) -> usize
        ensures value { result ≡ cond_argument_count_of self }
        ensures range { (0 < result) × (result ≤ 2) }
    {
        match self {
            Cond::Nz => 1,
            _ => 2,
        }
    }

    /// The condition with this code.
    #[tactic(auto, unfolding(crate::specs::Conditions::cond_of_code))]
    pub fn from_code(code: u8) -> Option<Cond>
        ensures { result ≡ cond_of_code code }
    {
        match code {
            0 => Some(Cond::Nz),
            1 => Some(Cond::Eq),
            2 => Some(Cond::Ne),
            3 => Some(Cond::LtS),
            4 => Some(Cond::LtU),
            5 => Some(Cond::LeS),
            6 => Some(Cond::LeU),
            _ => None,
        }
    }
}
