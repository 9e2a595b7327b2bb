//! Hints at keywords of C that are in no text.

ghost use Rattle.std.specs.Prelude.{◌≡◌};
ghost use Rattle.c_hints.specs.Keywords.{is_choice, is_class, is_foreign_type, is_type_maker, keyword_hint};

fn is_foreign_type(word: &str) -> bool
    ensures { result ≡ is_foreign_type word.now }
{
    word == "char"
        || (word == "short"
            || (word == "long"
                || (word == "float"
                    || (word == "double"
                        || (word == "signed"
                            || (word == "_Bool"
                                || (word == "_Complex" || word == "_Imaginary")))))))
}

fn is_type_maker(word: &str) -> bool
    ensures { result ≡ is_type_maker word.now }
{
    word == "typedef" || (word == "struct" || (word == "union" || word == "enum"))
}

fn is_choice(word: &str) -> bool
    ensures { result ≡ is_choice word.now }
{
    word == "switch" || (word == "case" || word == "default")
}

fn is_class(word: &str) -> bool
    ensures { result ≡ is_class word.now }
{
    word == "static"
        || (word == "const"
            || (word == "extern"
                || (word == "auto"
                    || (word == "register" || (word == "volatile" || word == "inline")))))
}

/// What is said of the word, if it is one of these.
pub(crate) fn keyword_hint(word: &str) -> &'static str
    ensures { result.now ≡ keyword_hint word.now }
{
    if is_foreign_type(word) {
        "not in this language: its types are `int` and `unsigned`"
    } else if is_type_maker(word) {
        "not in this language: there are no types of one's own"
    } else if is_choice(word) {
        "not in this language: write `if` and `else`"
    } else if word == "goto" {
        "not in this language: write a loop, `break` or `continue`"
    } else if word == "sizeof" {
        "not in this language: write the number of cells"
    } else if is_class(word) {
        "not in this language: leave it out"
    } else {
        ""
    }
}
