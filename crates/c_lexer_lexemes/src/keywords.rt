//! Keywords (C99 6.4.1), by length: a word is compared with nine spellings at most.

ghost use Rattle.std.specs.Prelude.{◌≡◌};
ghost use Rattle.c_lexer_lexemes.specs.Keywords.{keyword_text};
ghost use Rattle.c_lexer_lexemes.specs.Lookups.{lookup, keyword_of, of_two, of_three, of_four, of_five, of_six, of_seven, of_eight, of_ten};

use c_syntax::Keyword;

fn of_two(word: &[u8]) -> Option<Keyword>
    ensures { result ≡ lookup keyword_text of_two word.now }
{
    if word == b"do".as_slice() {
        Some(Keyword::Do)
    } else if word == b"if".as_slice() {
        Some(Keyword::If)
    } else {
        None
    }
}

fn of_three(word: &[u8]) -> Option<Keyword>
    ensures { result ≡ lookup keyword_text of_three word.now }
{
    if word == b"for".as_slice() {
        Some(Keyword::For)
    } else if word == b"int".as_slice() {
        Some(Keyword::Int)
    } else {
        None
    }
}

fn of_four(word: &[u8]) -> Option<Keyword>
    ensures { result ≡ lookup keyword_text of_four word.now }
{
    if word == b"auto".as_slice() {
        Some(Keyword::Auto)
    } else if word == b"case".as_slice() {
        Some(Keyword::Case)
    } else if word == b"char".as_slice() {
        Some(Keyword::Char)
    } else if word == b"else".as_slice() {
        Some(Keyword::Else)
    } else if word == b"enum".as_slice() {
        Some(Keyword::Enum)
    } else if word == b"goto".as_slice() {
        Some(Keyword::Goto)
    } else if word == b"long".as_slice() {
        Some(Keyword::Long)
    } else if word == b"void".as_slice() {
        Some(Keyword::Void)
    } else {
        None
    }
}

fn of_five(word: &[u8]) -> Option<Keyword>
    ensures { result ≡ lookup keyword_text of_five word.now }
{
    if word == b"break".as_slice() {
        Some(Keyword::Break)
    } else if word == b"const".as_slice() {
        Some(Keyword::Const)
    } else if word == b"float".as_slice() {
        Some(Keyword::Float)
    } else if word == b"short".as_slice() {
        Some(Keyword::Short)
    } else if word == b"union".as_slice() {
        Some(Keyword::Union)
    } else if word == b"while".as_slice() {
        Some(Keyword::While)
    } else if word == b"_Bool".as_slice() {
        Some(Keyword::Bool)
    } else {
        None
    }
}

fn of_six(word: &[u8]) -> Option<Keyword>
    ensures { result ≡ lookup keyword_text of_six word.now }
{
    if word == b"double".as_slice() {
        Some(Keyword::Double)
    } else if word == b"extern".as_slice() {
        Some(Keyword::Extern)
    } else if word == b"inline".as_slice() {
        Some(Keyword::Inline)
    } else if word == b"return".as_slice() {
        Some(Keyword::Return)
    } else if word == b"signed".as_slice() {
        Some(Keyword::Signed)
    } else if word == b"sizeof".as_slice() {
        Some(Keyword::Sizeof)
    } else if word == b"static".as_slice() {
        Some(Keyword::Static)
    } else if word == b"struct".as_slice() {
        Some(Keyword::Struct)
    } else if word == b"switch".as_slice() {
        Some(Keyword::Switch)
    } else {
        None
    }
}

fn of_seven(word: &[u8]) -> Option<Keyword>
    ensures { result ≡ lookup keyword_text of_seven word.now }
{
    if word == b"default".as_slice() {
        Some(Keyword::Default)
    } else if word == b"typedef".as_slice() {
        Some(Keyword::Typedef)
    } else {
        None
    }
}

fn of_eight(word: &[u8]) -> Option<Keyword>
    ensures { result ≡ lookup keyword_text of_eight word.now }
{
    if word == b"continue".as_slice() {
        Some(Keyword::Continue)
    } else if word == b"register".as_slice() {
        Some(Keyword::Register)
    } else if word == b"restrict".as_slice() {
        Some(Keyword::Restrict)
    } else if word == b"unsigned".as_slice() {
        Some(Keyword::Unsigned)
    } else if word == b"volatile".as_slice() {
        Some(Keyword::Volatile)
    } else if word == b"_Complex".as_slice() {
        Some(Keyword::Complex)
    } else {
        None
    }
}

fn of_ten(word: &[u8]) -> Option<Keyword>
    ensures { result ≡ lookup keyword_text of_ten word.now }
{
    if word == b"_Imaginary".as_slice() {
        Some(Keyword::Imaginary)
    } else {
        None
    }
}

/// The keyword that a word is, if it is one.
pub fn keyword(word: &[u8]) -> Option<Keyword>
    ensures { result ≡ keyword_of word.now }
{
    match word.len() {
        2 => of_two(word),
        3 => of_three(word),
        4 => of_four(word),
        5 => of_five(word),
        6 => of_six(word),
        7 => of_seven(word),
        8 => of_eight(word),
        10 => of_ten(word),
        _ => None,
    }
}
