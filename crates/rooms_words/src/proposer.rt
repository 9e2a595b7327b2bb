ghost use Rattle.std.specs.Prelude.{◌≡◌, ◌<◌, IfSome};
ghost use Rattle.rooms_words.specs.Words.{proposer_word, proposed_in, started_in, IsProposerWord};

/// The word of a node's proposer.
///
/// Bits 0 to 15 are the ballot that it started, 0 for none; bits 16 to 23 one more than the value that it proposed
/// under that ballot, 0 for none; all higher bits are 0.
#[derive(Clone, Copy, Debug, PartialEq, Eq)]
pub struct ProposerWord {
    pub started: u16,
    pub proposed: Option<u8>,
}

impl ProposerWord {
    /// The number that stands for it.
    pub fn pack(self) -> u64
        requires { IfSome self.proposed (λ v. v < 255) }
        ensures value { result ≡ proposer_word self.started self.proposed }
        ensures word { IsProposerWord result self.started self.proposed }
    {
        let proposed = match self.proposed {
            Some(value) => u64::from(value) + 1,
            None => 0,
        };
        u64::from(self.started) | proposed << 16
    }

    /// What the number stands for.
    pub fn unpack(word: u64) -> Self
        ensures started { result.started ≡ started_in word }
        ensures proposed { result.proposed ≡ proposed_in word }
    {
        let code = (word >> 16 & 0xff) as u8;
        ProposerWord {
            started: (word & 0xffff) as u16,
            proposed: if code == 0 { None } else { Some(code - 1) },
        }
    }
}
