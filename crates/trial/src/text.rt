// The text: a line is words and decimal numbers, and so is an answer. The first letters of a line's words tell what is asked, and `#`
// opens a remark.
use plan::refusal::Refusal;
use std::io::Stdout;

// More numbers than any line has.
const MOST: usize = 40;

// Where the second word stands behind `alter` or `force`.
const FIELD: usize = 6;

#[derive(Clone, Copy)]
pub struct Line<'a>(pub &'a [u8]);

impl Line<'_> {
    fn letter(self, at: usize) -> u8 {
        self.0.get(at).copied().unwrap_or(b'#')
    }

    // The first letter of the line's first word.
    pub fn word(self) -> u8 {
        self.letter(0)
    }

    // That of the word behind `alter` or `force`.
    pub fn field(self) -> u8 {
        self.letter(FIELD)
    }

    // How many numbers the line has.
    pub fn count(self) -> usize {
        before_remark(self.0)
            .split(|b| !is_digit(*b))
            .filter(|digits| !digits.is_empty())
            .take(MOST)
            .count()
    }

    // The line's number that has so many before it, and 0 where there is none.
    pub fn number(self, before: usize) -> u64 {
        before_remark(self.0)
            .split(|b| !is_digit(*b))
            .filter(|digits| !digits.is_empty())
            .nth(before)
            .map_or(0, value_of)
    }
}

fn is_digit(b: u8) -> bool {
    (b'0'..=b'9').contains(&b)
}

fn before_remark(line: &[u8]) -> &[u8] {
    line.split(|b| *b == b'#').next().unwrap_or(line)
}

// The number of some digits, and the greatest number where it would not fit.
fn value_of(digits: &[u8]) -> u64 {
    digits.iter().fold(
        0u64,
        |value, digit| value
            .saturating_mul(10)
            .saturating_add(u64::from(digit.saturating_sub(b'0'))),
    )
}

// Writes words, two numbers and a line end.
pub fn say(stdout: Stdout, words: &str, a: u64, b: u64) {
    let _ = println!(stdout; "{words}{a} {b}");
}

pub fn say_refused(stdout: Stdout, refusal: Refusal) {
    say(
        stdout,
        "refused ",
        u64::from(u8::from(refusal.rule)),
        refusal.row as u64,
    );
}
