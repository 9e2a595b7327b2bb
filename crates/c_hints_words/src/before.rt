//! What stands in front of a place in a text.

ghost use Rattle.std.specs.Prelude.{◌≡◌};
ghost use Rattle.c_hints_words.specs.Forms.{is_behind_call, is_declared, is_local, is_name_alone, is_nothing_begun, word_in_front};

use crate::kinds::{is_head, is_type, is_word};
use crate::words::{bytes_between, first_part, word_between};

/// The tokens in front of a place, as far as hints go by them. Where there is none it is empty.
#[derive(Clone, Copy, Debug)]
pub struct Before<'a> {
    /// The first token of the statement or declaration.
    pub first: &'a str,
    /// The last two.
    pub second: &'a str,
    pub last: &'a str,
    /// The token before the outermost parenthesis that was opened last.
    pub caller: &'a str,
    /// From where to before where the statement goes, as far as it has tokens.
    pub start: usize,
    pub end: usize,
    /// How many braces are open, and parentheses and brackets in the statement.
    pub braces: usize,
    pub parentheses: usize,
    pub brackets: usize,
}

impl<'a> Before<'a> {
    /// Nothing.
    fn nothing() -> Before<'a> {
        Before {
            first: "",
            second: "",
            last: "",
            caller: "",
            start: 0,
            end: 0,
            braces: 0,
            parentheses: 0,
            brackets: 0,
        }
    }

    /// Whether nothing of a statement or a declaration stands in front.
    pub fn is_nothing_begun(&self) -> bool
        ensures { result ≡ is_nothing_begun self.now }
    {
        self.last == ";" && self.parentheses == 0
            || (self.last == "{" || (self.last == "}" || self.last.is_empty()))
    }

    /// Whether a call of a name stands in front, whole.
    pub fn is_behind_call(&self) -> bool
        ensures { result ≡ is_behind_call self.now }
    {
        self.last == ")"
            && (self.parentheses == 0
                && (is_word(self.caller) && !(is_head(self.caller) || self.caller == "return")))
    }

    /// Whether this is a declaration.
    pub fn is_declared(&self) -> bool
        ensures { result ≡ is_declared self.now }
    {
        is_type(self.first)
    }

    /// Whether this is a declaration in a function.
    pub fn is_local(&self) -> bool
        ensures { result ≡ is_local self.now }
    {
        self.is_declared() && self.braces > 0
    }

    /// Whether the statement is a name alone.
    pub fn is_name_alone(&self) -> bool
        ensures { result ≡ is_name_alone self.now }
    {
        is_word(self.last) && self.first == self.last
    }

    /// The word in front that may be a keyword.
    pub fn word_in_front(&self) -> &'a str
        ensures { result.now ≡ word_in_front self.now }
    {
        if self.parentheses > 0 {
            self.caller
        } else {
            self.last
        }
    }

    /// How many brackets are open behind this token.
    fn brackets_behind(&self, token: &str) -> usize {
        match token {
            "[" => self.brackets.saturating_add(1),
            "]" => self.brackets.saturating_sub(1),
            "{" | "}" | ";" => 0,
            _ => self.brackets,
        }
    }

    /// The same behind one more token.
    fn behind(self, token: &'a str, start: usize, end: usize) -> Before<'a> {
        let begins = self.is_nothing_begun();
        let brackets = self.brackets_behind(token);
        let (parentheses, braces) = match token {
            "(" => (self.parentheses.saturating_add(1), self.braces),
            ")" => (self.parentheses.saturating_sub(1), self.braces),
            "{" => (0, self.braces.saturating_add(1)),
            "}" => (0, self.braces.saturating_sub(1)),
            _ => (self.parentheses, self.braces),
        };
        Before {
            first: if begins { token } else { self.first },
            second: self.last,
            last: token,
            caller: if token == "(" && self.parentheses == 0 {
                self.last
            } else {
                self.caller
            },
            start: if begins { start } else { self.start },
            end,
            braces,
            parentheses,
            brackets,
        }
    }
}

/// The tokens in front of this offset. The time is linear in the offset.
pub fn tokens_before(text: &[u8], at: usize) -> Before<'_> {
    let mut seen = Before::nothing();
    let mut next = 0usize;
    for _ in 0..text.len() {
        if next >= at {
            return seen;
        }
        let part = first_part(bytes_between(text, next, text.len()));
        let end = next.saturating_add(part.length);
        if part.is_token {
            seen = seen.behind(word_between(text, next, end), next, end);
        }
        next = end;
    }
    seen
}
