//! What a text declares, as far as hints need it: a name behind a type.

ghost use Rattle.c_hints_words.specs.Standing.{StandsWhere};

use crate::kinds::is_type;
use crate::words::{token_at, token_from};

/// A name that is declared: where it stands, and in how many blocks. A parameter counts as one of its function's body.
#[derive(Clone, Copy, Debug)]
struct Declared {
    at: usize,
    depth: usize,
}

/// How many braces and parentheses are open.
#[derive(Clone, Copy, Debug)]
struct Nesting {
    braces: usize,
    parentheses: usize,
}

impl Nesting {
    /// The same behind one more token.
    fn behind(self, token: &str) -> Nesting {
        let (braces, parentheses) = match token {
            "{" => (self.braces.saturating_add(1), 0),
            "}" => (self.braces.saturating_sub(1), 0),
            "(" => (self.braces, self.parentheses.saturating_add(1)),
            ")" => (self.braces, self.parentheses.saturating_sub(1)),
            _ => (self.braces, self.parentheses),
        };
        Nesting {
            braces,
            parentheses,
        }
    }

    /// In how many blocks a name that is declared here stands.
    fn depth(&self) -> usize {
        if self.parentheses > 0 {
            self.braces.saturating_add(1)
        } else {
            self.braces
        }
    }

    /// What is left of a declaration behind a token: a block's end, and that of a prototype, end those in it.
    fn leaves(&self, token: &str, declared: Option<Declared>) -> Option<Declared> {
        let declared = declared?;
        let is_ended = token == "}" || token == ";" && self.braces == 0;
        if is_ended && declared.depth > self.braces {
            None
        } else {
            Some(declared)
        }
    }
}

/// The offset, if this name stands there.
#[tactic(auto, using(crate::proofs::Standings::same_stands))]
fn standing(text: &[u8], at: usize, name: &str) -> Option<usize>
    ensures { StandsWhere text.now name.now result }
{
    if token_at(text, at) == name {
        Some(at)
    } else {
        None
    }
}

/// Where this name is declared last in front of an offset, in a block that is still open.
pub fn declared_before(text: &[u8], at: usize, name: &str) -> Option<usize>
    ensures { StandsWhere text.now name.now result }
{
    let mut nesting = Nesting {
        braces: 0,
        parentheses: 0,
    };
    let mut declared: Option<Declared> = None;
    let mut last = "";
    let mut next = 0usize;
    for _ in 0..text.len() {
        let token = token_from(text, next);
        if token.start >= at {
            break;
        }
        if is_type(last) && token.word == name {
            declared = Some(Declared {
                at: token.start,
                depth: nesting.depth(),
            });
        }
        nesting = nesting.behind(token.word);
        declared = nesting.leaves(token.word, declared);
        last = token.word;
        next = token.end;
    }
    match declared {
        Some(declared) => standing(text, declared.at, name),
        None => None,
    }
}

/// Where this name is declared first behind an offset.
pub fn declared_behind(text: &[u8], at: usize, name: &str) -> Option<usize>
    ensures { StandsWhere text.now name.now result }
{
    let mut last = "";
    let mut next = at;
    for _ in at..text.len() {
        let token = token_from(text, next);
        if token.word.is_empty() {
            break;
        }
        if is_type(last) && token.word == name {
            return standing(text, token.start, name);
        }
        last = token.word;
        next = token.end;
    }
    None
}

/// Where the name stands that is declared last in front of an offset and is one slip of the hand away from this one.
pub fn near_name(text: &[u8], at: usize, name: &str) -> Option<usize> {
    let mut found: Option<usize> = None;
    let mut last = "";
    let mut next = 0usize;
    for _ in 0..text.len() {
        let token = token_from(text, next);
        if token.start >= at {
            break;
        }
        if is_type(last) && is_near(token.word.as_bytes(), name.as_bytes()) {
            found = Some(token.start);
        }
        last = token.word;
        next = token.end;
    }
    found
}

/// How many bytes two words begin with alike.
fn alike(one: &[u8], other: &[u8]) -> usize {
    let most = one.len().min(other.len());
    for count in 0..most {
        if one.get(count) != other.get(count) {
            return count;
        }
    }
    most
}

/// How many bytes two words end with alike, of so many.
fn alike_behind(one: &[u8], other: &[u8], most: usize) -> usize {
    for count in 0..most {
        let first = one.get(one.len().saturating_sub(count).saturating_sub(1));
        let second = other.get(other.len().saturating_sub(count).saturating_sub(1));
        if first != second {
            return count;
        }
    }
    most
}

/// Whether two words of at least three letters differ by one letter more, less or other, or by two neighbours in other order.
fn is_near(one: &[u8], other: &[u8]) -> bool {
    if one.len() < 3 || other.len() < 3 {
        return false;
    }
    let front = alike(one, other);
    let most = one.len().min(other.len()).saturating_sub(front);
    let both = front.saturating_add(alike_behind(one, other, most));
    let (first, second) = (
        one.len().saturating_sub(both),
        other.len().saturating_sub(both),
    );
    let is_swapped = first == 2
        && second == 2
        && one.get(front) == other.get(front.saturating_add(1))
        && one.get(front.saturating_add(1)) == other.get(front);
    first.max(second) == 1 || is_swapped
}

/// How many parts stand in the parentheses behind the name at this offset: none behind `(` or `(void`. Nothing where they do not end.
pub fn parts_behind(text: &[u8], at: usize) -> Option<usize> {
    let name = token_from(text, at);
    let mut nesting = Nesting {
        braces: 0,
        parentheses: 0,
    };
    let mut count = 0usize;
    let mut last = "";
    let mut next = name.end;
    for _ in at..text.len() {
        let token = token_from(text, next);
        if nesting.parentheses == 1 && token.word == ")" {
            let has_none = last == "(" || last == "void" && count == 0;
            return Some(if has_none { 0 } else { count.saturating_add(1) });
        }
        if nesting.parentheses == 1 && token.word == "," {
            count = count.saturating_add(1);
        }
        nesting = nesting.behind(token.word);
        if token.word.is_empty() || nesting.parentheses == 0 {
            break;
        }
        last = token.word;
        next = token.end;
    }
    None
}
