// What a text declares, in memory that the caller lends, and what is carried through the rules that read it.
#![tactic(auto)]

ghost use Rattle.std.specs.Prelude.{◌≡◌};
ghost use Rattle.common.specs.Words.{ℕ, List, length};
ghost use Rattle.steps.specs.Steps.{the};
ghost use Rattle.steps.specs.Lifted.{lift, first_kind, second_kind};
ghost use Rattle.rows.specs.Rows.{Row, store, with_row};
ghost use Rattle.rows.specs.Said.{quiet, put, merged};
ghost use Rattle.rows.specs.States.{state_of, does, begun, on_with, props_with, fault_with, first_of};

use steps::{Fault, Went, next, second, symbol, worse};
use words::kinds::Kind;

pub mod sort; // sort.rt: what a row is of, and its columns

pub use sort::Sort;

// How many numbers a row has in memory.
pub const ROW: usize = 10;

// The properties that are read: a number for each, 0 where it was not found.
pub const PROPERTIES: usize = 6;

// What the rules have said so far: where the text goes on, the properties found, how many rows there are, and the least fault noted.
#[derive(Clone, Copy)]
pub struct Reading {
    pub went: Went,
    pub props: [usize; PROPERTIES],
    pub count: usize,
    pub fault: Option<Fault>,
}

pub const NO_PROPERTIES: [usize; PROPERTIES] = [0; PROPERTIES];

// A reading that begins at the text's first byte.
pub fn begun() -> Reading
    ensures { result ≡ begun }
{
    Reading {
        went: Ok(0),
        props: NO_PROPERTIES,
        count: 0,
        fault: None,
    }
}

// The same, where the text goes on elsewhere.
pub fn on(reading: Reading, went: Went) -> Reading
    ensures { result ≡ on_with reading went }
{
    Reading { went, ..reading }
}

// The same, with other properties.
pub fn with_props(reading: Reading, props: [usize; PROPERTIES]) -> Reading
    ensures { result ≡ props_with reading props }
{
    Reading { props, ..reading }
}

// One fault more that was noted.
pub fn noted(reading: Reading, fault: Option<Fault>) -> Reading
    ensures { result ≡ fault_with reading fault }
{
    Reading {
        fault: worse(reading.fault, fault),
        ..reading
    }
}

// The kinds of the next token and of the one behind it; the text's end where a rule has stopped.
pub fn next_of(text: &[u8], reading: Reading) -> Kind
    ensures { result ≡ first_kind (lift text.now reading.went) }
{
    next(text, reading.went)
}

pub fn second_of(text: &[u8], reading: Reading) -> Kind
    ensures { result ≡ second_kind (lift text.now reading.went) }
{
    second(text, reading.went)
}

// The next token is of this kind.
pub fn symbol_on(text: &[u8], reading: Reading, kind: Kind) -> Reading
    ensures { (m : List ℕ) → state_of text.now result m ≡ does (state_of text.now reading m) (quiet (the kind)) }
{
    on(reading, symbol(text, reading.went, kind))
}

// Each property from the first that has it.
pub fn merged(a: [usize; PROPERTIES], b: [usize; PROPERTIES]) -> [usize; PROPERTIES]
    ensures { result ≡ merged a b }
{
    let mut out = NO_PROPERTIES;
    for q in 0..PROPERTIES {
        out[q] = first_of(a[q], b[q]);
    }
    out
}

fn first_of(a: usize, b: usize) -> usize
    ensures { result ≡ first_of a b }
{
    if a == 0 { b } else { a }
}

// A row more, where there is room.
fn keep(rows: &mut [usize], count: usize, row: [usize; ROW]) -> usize
    ensures { store rows.new result ≡ with_row (store rows.old count) row }
{
    if rows.len() / ROW <= count {
        return count;
    }
    let at = ROW * count;
    rows[at..at + ROW].copy_from_slice(&row);
    count + 1
}

// What was declared, where no rule has stopped.
pub fn put(rows: &mut [usize], reading: Reading, numbers: [usize; ROW]) -> Reading
    ensures { (p : List ℕ) (row : List ℕ → Row) → row reading.props ≡ numbers →
        state_of p result rows.new ≡ does (state_of p reading rows.old) (put row) }
{
    let Ok(_) = reading.went else {
        return reading;
    };
    Reading {
        count: keep(rows, reading.count, numbers),
        ..reading
    }
}
