ghost use Rattle.std.specs.Prelude.{◌≡◌};
ghost use Rattle.cfarm_run.specs.Sentences.{check_sentence, lex_sentence, read_sentence, sentence_of};

use c_checker_rules::CheckError;
use c_lexer::LexError;
use c_reader::ReadError;
use c_texts::TextError;

/// What a fault of a text means.
pub fn sentence_of(fault: TextError) -> &'static str
    ensures { result.now ≡ sentence_of fault }
{
    match fault {
        TextError::Lex(fault) => lex_sentence(fault),
        TextError::Read(fault) => read_sentence(fault),
        TextError::Check(fault) => check_sentence(fault),
    }
}

fn lex_sentence(fault: LexError) -> &'static str
    ensures { result.now ≡ lex_sentence fault }
{
    match fault {
        LexError::NoMemory => "there was no memory",
        LexError::BadByte(_) => "this byte begins no token",
        LexError::OpenComment(_) => "this comment is not ended",
        LexError::LiteralRange(_) => {
            "this number fits neither `int` nor `unsigned`, or something follows it at once"
        }
        LexError::BadChar(_) => "this begins no character constant",
    }
}

fn read_sentence(fault: ReadError) -> &'static str
    ensures { result.now ≡ read_sentence fault }
{
    match fault {
        ReadError::NoMemory => "there was no memory",
        ReadError::Syntax(_) => "this does not fit what stands before it",
        ReadError::TooDeep(_) => {
            "statements and expressions stand more than 200 deep in one another here"
        }
    }
}

fn check_sentence(fault: CheckError) -> &'static str
    ensures { result.now ≡ check_sentence fault }
{
    match fault {
        CheckError::NoMemory => "there was no memory",
        CheckError::Undeclared(_) => "this name is not declared before as what it is used as",
        CheckError::Redeclared(_) =>
            "this name is declared already, in this scope or as another type",
        CheckError::WrongArity(_) => "this function is called with another number of arguments",
        CheckError::VoidValue(_) => "a value is wanted of a function without one, or given by it",
        CheckError::NoMain(_) => "there is no function `main`",
        CheckError::BadMain(_) => "`main` has to be `int main(void)`",
        CheckError::NotConstant(_) => {
            "a global begins with a constant: without names, and without what goes wrong"
        }
        CheckError::NoBody(_) => "this function is called and has no body",
        CheckError::Limit(_) => "this passes a limit of the language",
        CheckError::StrayBreak(_) => "this stands outside of every loop",
        CheckError::ArrayUse(_) => {
            "an array without an index, an index without an array, or initial words that do not fit"
        }
    }
}
