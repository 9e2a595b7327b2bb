//! Where a byte stands in a text.

ghost use Rattle.std.specs.Prelude.{◌≡◌, ◌≤◌, ◌<◌, ◌+◌, ◌^◌, take};
ghost use Rattle.c_places.specs.Places.{after, goes_on, place_of, with_byte};

/// Where a byte stands in a text: both count from 1, the column in characters of UTF-8.
#[derive(Clone, Copy, Debug, PartialEq, Eq)]
pub struct Place {
    pub line: usize,
    pub column: usize,
}

/// The bytes in front of an offset, which are all where it is behind the text.
fn front_of(text: &[u8], at: usize) -> &[u8]
    ensures { result.now ≡ take at text.now }
{
    if at < text.len() { &text[..at] } else { text }
}

/// Whether the byte goes on with a character of UTF-8 that began before it.
fn goes_on(byte: u8) -> bool
    ensures { result ≡ goes_on byte }
{
    if byte < 128 { false } else { byte < 192 }
}

/// The column behind a byte that ends no line.
fn with_byte(byte: u8, column: usize) -> usize
    requires small { column < 2 ^ 63 }
    ensures column { result ≡ with_byte byte column }
    ensures near { result ≤ column + 1 }
{
    if goes_on(byte) { column } else { column + 1 }
}

/// The place behind a byte.
fn behind(place: Place, byte: u8) -> Place
    requires small { (place.line < 2 ^ 63) × (place.column < 2 ^ 63) }
    ensures place { result ≡ after place byte }
    ensures near { (result.line ≤ place.line + 1) × (result.column ≤ place.column + 1) }
{
    if byte == b'\n' {
        Place {
            line: place.line + 1,
            column: 1,
        }
    } else {
        Place {
            line: place.line,
            column: with_byte(byte, place.column),
        }
    }
}

/// The place of the byte at this offset.
pub fn place_of(text: &[u8], at: usize) -> Place
    ensures { result ≡ place_of text.now at }
{
    let front = front_of(text, at);
    let mut place = Place { line: 1, column: 1 };
    for count in 0..front.len() {
        place = behind(place, front[count]);
    }
    place
}
