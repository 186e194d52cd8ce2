// The plain text: what the rules see of an AADL text, byte for byte as long as it is. Letters are small; a comment is blanks, a string its
// first quote and blanks, an annex the letter A and blanks. Nothing here is refused.
#![tactic(auto)]

ghost use Rattle.std.specs.Prelude.{◌≡◌, ◌+◌, ◌-◌, ◌≤◌, ◌<◌};
ghost use Rattle.common.specs.Words.{List, ℕ, true, length, drop, get_or};
ghost use Rattle.plain.specs.Plain.{lower, two, three, string_by, close_by, annex_rest, brace, begun, step_of, mark_rest, plain_of};
ghost use Rattle.plain.specs.Inside.{comment_of, left_of, seen};
ghost use Rattle.plain.specs.Close.{quote_width, ends_string, ended_by, last_close};

use words::byte_at;

// What a byte stands in: a comment, or what is left of a string, an annex or the mark that a text may begin with. Of none nothing is left.
#[derive(Clone, Copy)]
pub enum Inside {
    Comment,
    Rest(usize),
}

// A byte of the plain text, and what the next one stands in.
#[derive(Drop)]
pub struct Seen {
    pub byte: u8,
    pub after: Inside,
}

// A letter as a small one.
fn lower(b: u8) -> u8
    ensures { result ≡ lower b }
{
    b.to_ascii_lowercase()
}

// Whether two bytes stand at a place.
fn two_at(text: &[u8], at: usize, a: u8, b: u8) -> bool
    requires { at ≤ length text.now }
    ensures { result ≡ two (drop at text.now) a b }
{
    byte_at(text, at) == a && byte_at(text, at + 1) == b
}

// Whether three bytes stand at a place.
fn three_at(text: &[u8], at: usize, a: u8, b: u8, c: u8) -> bool
    requires { at ≤ length text.now }
    ensures { result ≡ three (drop at text.now) a b c }
{
    two_at(text, at, a, b) && byte_at(text, at + 2) == c
}

// A doubled quote counts as one.
fn quote_width(b: u8) -> usize
    ensures { (result ≡ quote_width b) × (0 < result) × (result ≤ 2) }
{
    if b == b'"' { 2 } else { 1 }
}

// A quote that is not doubled.
fn ends_string(text: &[u8], at: usize) -> bool
    requires { at < length text.now }
    ensures { result ≡ ends_string text.now at }
{
    text[at] == b'"' && byte_at(text, at + 1) != b'"'
}

// Where a string has ended so far, by a byte that does not end it: a doubled quote's first one would.
fn ended_by(b: u8, passed: usize, ended: usize) -> usize
    requires { passed < 0x7fff_ffff_ffff_ffff }
    ensures { result ≡ ended_by b passed ended }
{
    if b == b'"' { passed + 1 } else { ended }
}

// How many bytes a string has behind its first quote, 0 where none begins: no quote follows in this line. The index is counted by hand,
// since a turn passes one byte or, at a doubled quote, two.
fn string_rest(text: &[u8], at: usize) -> usize
    requires { at ≤ length text.now }
    ensures { result ≡ string_by 0 0 (drop at text.now) }
{
    let mut i = at;
    let mut ended: usize = 0;
    while i < text.len() {
        let b = text[i];
        if b == b'\n' {
            return ended;
        }
        if ends_string(text, i) {
            return i + 1 - at;
        }
        ended = ended_by(b, i - at, ended);
        i += quote_width(b);
    }
    ended
}

// The place behind the first byte of the last `**}`, 0 where there is none.
fn last_close(text: &[u8]) -> usize
    ensures { result ≡ last_close text.now }
{
    for i in (0..text.len()).rev() {
        if three_at(text, i, b'*', b'*', b'}') {
            return i + 1;
        }
    }
    0
}

// How many bytes an annex has behind its brace, which stands before `at`, 0 where nothing closes it.
fn close_rest(text: &[u8], at: usize) -> usize
    requires { at ≤ length text.now }
    ensures { result ≡ close_by 2 (drop (at + 2) text.now) }
{
    for i in at + 2..text.len() {
        if three_at(text, i, b'*', b'*', b'}') {
            return i + 3 - at;
        }
    }
    0
}

// How many bytes an annex has behind its brace, 0 where none begins. Behind the text's last `**}` nothing closes one, so that it is not
// looked for again and again.
fn annex_rest(text: &[u8], at: usize, last: usize) -> usize
    requires { (at ≤ length text.now) × (last ≡ last_close text.now) }
    ensures { result ≡ annex_rest (drop at text.now) }
{
    if !two_at(text, at, b'*', b'*') {
        return 0;
    }
    if last <= at + 2 {
        return 0;
    }
    close_rest(text, at)
}

// The letter that stands for an annex, or the brace where none begins.
fn brace(annexed: usize) -> u8
    ensures { result ≡ brace annexed }
{
    if annexed == 0 { b'{' } else { b'A' }
}

// A byte outside of comments, strings and annexes.
fn begun(text: &[u8], at: usize, last: usize) -> Seen
    requires { (at < length text.now) × (last ≡ last_close text.now) }
    ensures { seen result ≡ begun (get_or text.now at 0) (drop (at + 1) text.now) }
{
    if two_at(text, at, b'-', b'-') {
        return Seen {
            byte: b' ',
            after: Inside::Comment,
        };
    }
    let b = text[at];
    if b == b'"' {
        return Seen {
            byte: b'"',
            after: Inside::Rest(string_rest(text, at + 1)),
        };
    }
    if b == b'{' {
        let annexed = annex_rest(text, at + 1, last);
        return Seen {
            byte: brace(annexed),
            after: Inside::Rest(annexed),
        };
    }
    Seen {
        byte: lower(b),
        after: Inside::Rest(0),
    }
}

// The next byte of a comment.
fn commented(byte: u8) -> Seen
    ensures { (bs : List ℕ) → seen result ≡ step_of true 0 byte bs }
{
    if byte == b'\n' {
        return Seen {
            byte: b'\n',
            after: Inside::Rest(0),
        };
    }
    Seen {
        byte: b' ',
        after: Inside::Comment,
    }
}

// The next byte, by what it stands in.
fn next(text: &[u8], at: usize, last: usize, inside: Inside) -> Seen
    requires { (at < length text.now) × (last ≡ last_close text.now) }
    ensures { seen result ≡ step_of (comment_of inside) (left_of inside) (get_or text.now at 0) (drop (at + 1) text.now) }
{
    match inside {
        Inside::Comment => commented(text[at]),
        Inside::Rest(left) if 0 < left => Seen {
            byte: b' ',
            after: Inside::Rest(left - 1),
        },
        Inside::Rest(_) => begun(text, at, last),
    }
}

// How many bytes the mark has that a text may begin with.
fn mark_rest(text: &[u8]) -> usize
    ensures { result ≡ mark_rest text.now }
{
    if three_at(text, 0, 0xef, 0xbb, 0xbf) {
        3
    } else {
        0
    }
}

// Writes the plain text of a text into memory of the same length.
pub fn make_plain(text: &[u8], plain: &mut [u8])
    requires { length plain.old ≡ length text.now }
    ensures { plain.new ≡ plain_of text.now }
{
    let last = last_close(text);
    let mut inside = Inside::Rest(mark_rest(text));
    for i in 0..text.len() {
        let seen = next(text, i, last, inside);
        plain[i] = seen.byte;
        inside = seen.after;
    }
}
