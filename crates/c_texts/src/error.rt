ghost use Rattle.std.specs.Prelude.{◌≡◌};
ghost use Rattle.c_texts.specs.Lines.{check_name, lex_name, name_of, read_name};
ghost use Rattle.c_texts.specs.Refusals.{number_of, offset_of};

use c_checker_rules::CheckError;
use c_lexer::LexError;
use c_reader::ReadError;
use std::fmt;

/// Why a text is no program, or that there was no memory to tell. Its text is the line that a user is shown.
#[derive(Clone, Copy, Debug, PartialEq, Eq)]
pub enum TextError {
    /// The text has no tokens, or a constant is refused.
    Lex(LexError),
    /// The tokens spell no tree, or only one that is too high.
    Read(ReadError),
    /// The tree is not well formed.
    Check(CheckError),
}

impl TextError {
    /// The number that a user is shown.
    pub fn number(self) -> u16
        ensures { result ≡ number_of self }
    {
        match self {
            TextError::Lex(fault) => fault.number(),
            TextError::Read(fault) => fault.number(),
            TextError::Check(fault) => fault.number(),
        }
    }

    /// The byte offset that it is about; none where memory was refused.
    pub fn offset(self) -> Option<usize>
        ensures { result ≡ offset_of self }
    {
        match self {
            TextError::Lex(fault) => fault.offset(),
            TextError::Read(fault) => fault.offset(),
            TextError::Check(fault) => fault.offset(),
        }
    }

    /// The name that a user is shown.
    pub fn name(self) -> &'static str
        ensures { result.now ≡ name_of self }
    {
        match self {
            TextError::Lex(fault) => lex_name(fault),
            TextError::Read(fault) => read_name(fault),
            TextError::Check(fault) => check_name(fault),
        }
    }
}

fn lex_name(fault: LexError) -> &'static str
    ensures { result.now ≡ lex_name fault }
{
    match fault {
        LexError::NoMemory => "NoMemory",
        LexError::BadByte(_) => "BadByte",
        LexError::OpenComment(_) => "OpenComment",
        LexError::LiteralRange(_) => "LiteralRange",
        LexError::BadChar(_) => "BadChar",
    }
}

fn read_name(fault: ReadError) -> &'static str
    ensures { result.now ≡ read_name fault }
{
    match fault {
        ReadError::NoMemory => "NoMemory",
        ReadError::Syntax(_) => "Syntax",
        ReadError::TooDeep(_) => "TooDeep",
    }
}

fn check_name(fault: CheckError) -> &'static str
    ensures { result.now ≡ check_name fault }
{
    match fault {
        CheckError::NoMemory => "NoMemory",
        CheckError::Undeclared(_) => "Undeclared",
        CheckError::Redeclared(_) => "Redeclared",
        CheckError::WrongArity(_) => "WrongArity",
        CheckError::VoidValue(_) => "VoidValue",
        CheckError::NoMain(_) => "NoMain",
        CheckError::BadMain(_) => "BadMain",
        CheckError::NotConstant(_) => "NotConstant",
        CheckError::NoBody(_) => "NoBody",
        CheckError::Limit(_) => "Limit",
        CheckError::StrayBreak(_) => "StrayBreak",
        CheckError::ArrayUse(_) => "ArrayUse",
    }
}

impl fmt::Display for TextError {
    ghost use Rattle.std.specs.Prelude.{Some};
    ghost use Rattle.c_texts.specs.Lines.{text_line};

    ghost output = { λ fault. Some (text_line fault) };

    fn fmt<W: fmt::Write>(&self, f: &mut fmt::Formatter<W>) -> fmt::Result {
        let number = self.number();
        let name = self.name();
        match self.offset() {
            Some(at) => write!(f, "refused {number} {name} at {at}"),
            None => write!(f, "memory"),
        }
    }
}

impl std::error::Error for TextError {}

impl From<LexError> for TextError {
    ghost use Rattle.std.specs.Prelude.{◌≡◌};
    ghost use Rattle.c_texts.specs.declared.error.TextError.TheVariants.{Lex};

    ghost from_gives = { λ fault e. e ≡ Lex fault };

    fn from(fault: LexError) -> TextError {
        TextError::Lex(fault)
    }
}

impl From<ReadError> for TextError {
    ghost use Rattle.std.specs.Prelude.{◌≡◌};
    ghost use Rattle.c_texts.specs.declared.error.TextError.TheVariants.{Read};

    ghost from_gives = { λ fault e. e ≡ Read fault };

    fn from(fault: ReadError) -> TextError {
        TextError::Read(fault)
    }
}

impl From<CheckError> for TextError {
    ghost use Rattle.std.specs.Prelude.{◌≡◌};
    ghost use Rattle.c_texts.specs.declared.error.TextError.TheVariants.{Check};

    ghost from_gives = { λ fault e. e ≡ Check fault };

    fn from(fault: CheckError) -> TextError {
        TextError::Check(fault)
    }
}
