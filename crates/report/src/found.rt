// What stands at a place of a text, for people: its line and column, and the token that begins there.
ghost use Rattle.std.specs.Prelude.{◌≡◌, ◌<◌};
ghost use Rattle.common.specs.Words.{length, take};
ghost use Rattle.report.specs.Places.{past, point_of};

use plain::make_plain;
use std::fmt;
use std::fmt::{Display, Write};
use steps::Why;
use tokens::{Spot, spot_at};

// Both counted from 1; a column is a byte.
#[derive(Clone, Copy)]
pub struct Point {
    pub line: usize,
    pub column: usize,
}

impl Display for Point {
    fn fmt<W: fmt::Write>(&self, f: &mut fmt::Formatter<W>) -> fmt::Result {
        let Point { line, column } = *self;
        write!(f, "line {line}, column {column}")
    }
}

// So many bytes of a token are shown.
const SHOWN: usize = 40;

// Bytes enough to tell where a token ends, as far as it is shown.
const WINDOW: usize = 48;

// The point behind a byte.
fn past(point: Point, byte: u8) -> Point
    requires { (point.line < 0x8000_0000_0000_0000) × (point.column < 0x8000_0000_0000_0000) }
    ensures { result ≡ past point byte }
{
    let Point { line, column } = point;
    if byte == b'\n' {
        return Point {
            line: line + 1,
            column: 1,
        };
    }
    Point {
        line,
        column: column + 1,
    }
}

// The line and the column of a place.
pub fn point_of(text: &[u8], place: usize) -> Point
    ensures { result ≡ point_of (take place text.now) }
{
    let before = &text[..place.min(text.len())];
    let mut point = Point { line: 1, column: 1 };
    for byte in before {
        point = past(point, *byte);
    }
    point
}

// The token that begins at a place, counted from there, as far as a window shows it.
pub fn token_at(text: &[u8], place: usize) -> Spot {
    let mut window = [0u8; WINDOW];
    let rest = &text[place.min(text.len())..];
    let n = WINDOW.min(rest.len());
    make_plain(&rest[..n], &mut window[..n]);
    spot_at(&window[..n], 0)
}

// How many bytes a string has, with its quotes, or the rest of its line where nothing ends it: behind the first quote stands `rest`.
fn string_width(rest: &[u8]) -> usize {
    let inside = rest
        .iter()
        .take_while(|b| **b != b'"' && **b != b'\n')
        .count();
    if rest.get(inside) == Some(&b'"') {
        return inside.saturating_add(2);
    }
    inside.saturating_add(1)
}

// How many bytes are shown of what begins at a place, where nothing is left out: a string is shown whole, an annex by its sign.
fn width_at(text: &[u8], place: usize) -> usize
    requires { place < length text.now }
{
    let rest = &text[place..];
    if rest.starts_with(b"{**") {
        return 3;
    }
    if rest[0] == b'"' {
        return string_width(&rest[1..]);
    }
    token_at(text, place).end
}

// A byte that can be printed; a question mark stands for any other.
fn printable(byte: u8) -> char {
    match byte {
        b' '..=b'~' => char::from(byte),
        _ => '?',
    }
}

// What stands at a place of a text, where it is refused: `'perod'`.
#[derive(Clone, Copy)]
pub struct Found<'a> {
    pub text: &'a [u8],
    pub place: usize,
    pub why: Why,
}

impl Display for Found<'_> {
    fn fmt<W: fmt::Write>(&self, f: &mut fmt::Formatter<W>) -> fmt::Result {
        let text = self.text;
        let place = self.place;
        if text.len() <= place {
            return f.write_str("the end of the text");
        }
        if self.why == Why::TooLong {
            return f.write_str("more text");
        }
        quote(f, &text[place..], width_at(text, place))
    }
}

// So many of the first bytes, in quotes; where they are many, not all of them.
fn quote<W: fmt::Write>(f: &mut fmt::Formatter<W>, bytes: &[u8], width: usize) -> fmt::Result {
    f.write_str("'")?;
    for byte in &bytes[..width.min(SHOWN).min(bytes.len())] {
        f.write_char(printable(*byte))?;
    }
    f.write_str(if SHOWN < width { "..'" } else { "'" })
}
