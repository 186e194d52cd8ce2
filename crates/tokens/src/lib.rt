// Tokens of a plain text, which the crate `plain` makes: what stands at a place, whatever the text.
#![tactic(auto)]

ghost use Rattle.std.specs.Prelude.{◌≡◌, ◌+◌, ◌-◌, ◌≤◌, ◌<◌};
ghost use Rattle.common.specs.Words.{length, drop, get_or, eqb};
ghost use Rattle.common.specs.Stores.{part};
ghost use Rattle.words.specs.Words.{kind_of};
ghost use Rattle.tokens.specs.Tokens.{rank, sort_of, in_name, run, number_width, sign_shape, shape_of};
ghost use Rattle.tokens.specs.Spots.{Stands};

use words::kinds::Kind;
use words::{byte_at, word_kind};

// The token at a place: its kind, the place of its first byte and the place behind its last.
#[derive(Clone, Copy)]
pub struct Spot {
    pub kind: Kind,
    pub start: usize,
    pub end: usize,
}

// A token's kind, and how many bytes it has.
#[derive(Clone, Copy)]
pub struct Shape {
    pub kind: Kind,
    pub width: usize,
}

// The sorts of bytes, in such an order that each run of bytes is of the sorts from one to another.
#[derive(Clone, Copy, PartialEq, Eq, PartialOrd, Ord)]
enum Sort {
    Blank,
    Sign,
    Letter,
    Underscore,
    Digit,
}

const B: Sort = Sort::Blank;

const S: Sort = Sort::Sign;

const L: Sort = Sort::Letter;

const U: Sort = Sort::Underscore;

const D: Sort = Sort::Digit;

// The sort of each byte, 32 in a line. A table, since each byte of a text is sorted several times. Capital letters do not stand in a plain
// text but for an annex, a sign.
static SORTS: [Sort; 256] = [
    S, S, S, S, S, S, S, S, S, B, B, B, B, B, S, S, S, S, S, S, S, S, S, S, S, S, S, S, S, S, S, S,
    B, S, S, S, S, S, S, S, S, S, S, S, S, S, S, S, D, D, D, D, D, D, D, D, D, D, S, S, S, S, S, S,
    S, S, S, S, S, S, S, S, S, S, S, S, S, S, S, S, S, S, S, S, S, S, S, S, S, S, S, S, S, S, S, U,
    S, L, L, L, L, L, L, L, L, L, L, L, L, L, L, L, L, L, L, L, L, L, L, L, L, L, L, S, S, S, S, S,
    S, S, S, S, S, S, S, S, S, S, S, S, S, S, S, S, S, S, S, S, S, S, S, S, S, S, S, S, S, S, S, S,
    S, S, S, S, S, S, S, S, S, S, S, S, S, S, S, S, S, S, S, S, S, S, S, S, S, S, S, S, S, S, S, S,
    S, S, S, S, S, S, S, S, S, S, S, S, S, S, S, S, S, S, S, S, S, S, S, S, S, S, S, S, S, S, S, S,
    S, S, S, S, S, S, S, S, S, S, S, S, S, S, S, S, S, S, S, S, S, S, S, S, S, S, S, S, S, S, S, S,
];

fn sort_of(b: u8) -> Sort
    ensures { rank result ≡ sort_of b }
{
    SORTS[usize::from(b)]
}

// Whether a byte can stand in a name.
pub fn in_name(b: u8) -> bool
    ensures { result ≡ in_name b }
{
    Sort::Letter <= sort_of(b)
}

// The end of the run of bytes whose sorts lie from `low` to `high`.
fn past(text: &[u8], at: usize, low: Sort, high: Sort) -> usize
    ensures { result ≡ at + run (rank low) (rank high) (drop at text.now) }
{
    // a `for` over the places keeps three more counts of them in registers, which shows in the time of every text
    let mut i = at;
    while i < text.len() {
        let sort = sort_of(text[i]);
        if sort < low || high < sort {
            return i;
        }
        i += 1;
    }
    i
}

// The end of the number that begins at a place.
fn number_end(text: &[u8], at: usize) -> usize
    requires { at ≤ length text.now }
    ensures { result ≡ at + number_width (drop at text.now) }
{
    let end = past(text, at, Sort::Underscore, Sort::Digit);
    if byte_at(text, end) != b'.' {
        return end;
    }
    if sort_of(byte_at(text, end + 1)) != Sort::Digit {
        return end;
    }
    past(text, end + 1, Sort::Underscore, Sort::Digit)
}

// Whether a byte stands at a place.
fn stands(text: &[u8], at: usize, byte: u8) -> bool
    ensures { result ≡ eqb (get_or text.now at 0) byte }
{
    byte_at(text, at) == byte
}

// The sign that begins at a place: the longest, or the first byte by itself. Most signs begin no longer one, and what follows them is not
// looked at.
#[tactic(auto, using(common::specs::Tests::tests), unfolding(crate::specs::Tokens::sign_shape))]
fn sign_at(text: &[u8], at: usize) -> Shape
    requires { at < length text.now }
    ensures { result ≡ sign_shape (get_or text.now at 0) (get_or text.now (at + 1) 0) (get_or text.now (at + 2) 0) }
{
    let (kind, width) = match text[at] {
        b'=' if stands(text, at + 1, b'>') => (Kind::Becomes, 2),
        b'+' if stands(text, at + 1, b'=') && stands(text, at + 2, b'>') => (Kind::Adds, 3),
        b'-' if stands(text, at + 1, b'>') && stands(text, at + 2, b'>') => (Kind::Delaying, 3),
        b'-' if stands(text, at + 1, b'>') => (Kind::Arrow, 2),
        b'<' if stands(text, at + 1, b'-') && stands(text, at + 2, b'>') => (Kind::BothWays, 3),
        b':' if stands(text, at + 1, b':') => (Kind::Scope, 2),
        b'.' if stands(text, at + 1, b'.') => (Kind::Dots, 2),
        sign => (Kind::Sign(sign), 1),
    };
    Shape { kind, width }
}

// The kind of a word, in a call of its own: compiled into `spot_at`, it would have every sign save the registers that it takes.
#[inline(never)]
fn kind_of(text: &[u8], start: usize, end: usize) -> Kind
    requires { (start ≤ end) × (end ≤ length text.now) }
    ensures { result ≡ kind_of (part text.now start (end - start)) }
{
    word_kind(text, start, end)
}

// The token that begins at a place of the text.
fn shape_at(text: &[u8], at: usize) -> Shape
    requires { at < length text.now }
    ensures { result ≡ shape_of (drop at text.now) }
{
    match sort_of(text[at]) {
        Sort::Letter => {
            let end = past(text, at, Sort::Letter, Sort::Digit);
            Shape {
                kind: kind_of(text, at, end),
                width: end - at,
            }
        }
        Sort::Digit => Shape {
            kind: Kind::Number,
            width: number_end(text, at) - at,
        },
        _ => sign_at(text, at),
    }
}

// The first token from a place on. At the text's end it is `Ended`.
pub fn spot_at(text: &[u8], at: usize) -> Spot
    ensures { Stands text.now at result }
{
    let start = past(text, at, Sort::Blank, Sort::Blank);
    if text.len() <= start {
        return Spot {
            kind: Kind::Ended,
            start,
            end: start,
        };
    }
    let shape = shape_at(text, start);
    Spot {
        kind: shape.kind,
        start,
        end: start + shape.width,
    }
}
