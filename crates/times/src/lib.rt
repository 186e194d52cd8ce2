// Times, a number and a unit in whole ticks; and priorities, a number without a point.
#![tactic(auto)]

pub mod priorities; // priorities.rt: priorities

ghost use Rattle.std.specs.Prelude.{◌≡◌, ◌-◌, ◌≤◌, ◌<◌, ◌&&◌};
ghost use Rattle.common.specs.Words.{length};
ghost use Rattle.common.specs.Stores.{part};
ghost use Rattle.tokens.specs.Spots.{token_of};
ghost use Rattle.steps.specs.Lifted.{lift};
ghost use Rattle.times.specs.Times.{most, with_digit, with_byte, filled, time_of};
ghost use Rattle.times.specs.Sums.{grown, counted, Forms, time_from, odd_at, unformed};

use steps::{Fault, Rule, Went, Why, is_name, unfit};
use tokens::{Spot, spot_at};
use words::kinds::Kind;

// A number as its bytes are read: the ticks so far, how many more places behind the point are ticks, whether the point came, and whether
// what follows those places is 0.
#[derive(Clone, Copy)]
pub struct Sum {
    pub ticks: usize,
    pub places: usize,
    pub point: bool,
    pub whole: bool,
}

// What a form says: where the text goes on, the property's value, and the fault that is noted. The value is the number of a row's column: 0
// where there is none, 1 for one that has a fault, else 2 more than what it says.
#[derive(Drop)]
pub struct Formed {
    pub went: Went,
    pub value: usize,
    pub fault: Option<Fault>,
}

// A time above this counts as this, which planning refuses.
const MOST: usize = 1_000_000_000_000;

// The value of a number that is there and has a fault.
pub const ODD: usize = 1;

// One digit more.
fn grown(n: usize, d: usize) -> usize
    requires { (n ≤ most) × (d < 256) }
    ensures { (result ≡ grown n d) × (result ≤ most) }
{
    (n * 10 + d).min(MOST)
}

// The value of a digit, 0 for a byte below it.
fn digit_of(b: u8) -> usize
    ensures { (result ≡ b - 0x30) × (result < 256) }
{
    usize::from(b.saturating_sub(b'0'))
}

fn with_digit(s: Sum, d: usize) -> Sum
    requires { (s.ticks ≤ most) × (d < 256) }
    ensures { (result ≡ with_digit grown s d) × (result.ticks ≤ most) }
{
    match (s.point, s.places) {
        (false, _) => Sum {
            ticks: grown(s.ticks, d),
            ..s
        },
        (true, 0) => Sum {
            whole: s.whole && d == 0,
            ..s
        },
        (true, _) => Sum {
            ticks: grown(s.ticks, d),
            places: s.places - 1,
            ..s
        },
    }
}

// One byte more: underscores say nothing.
#[tactic(auto, unfolding(crate::specs::Times::with_byte))]
fn with_byte(s: Sum, b: u8) -> Sum
    requires { s.ticks ≤ most }
    ensures { (result ≡ with_byte grown s b) × (result.ticks ≤ most) }
{
    match b {
        b'_' => s,
        b'.' => Sum { point: true, ..s },
        _ => with_digit(s, digit_of(b)),
    }
}

// The number from `start` to `end`, with so many places behind its point.
fn sum_of(text: &[u8], start: usize, end: usize, places: usize) -> Sum
    requires { (start ≤ end) × (end ≤ length text.now) }
    ensures { (result ≡ counted (part text.now start (end - start)) places) × (result.ticks ≤ most) }
{
    let mut s = Sum {
        ticks: 0,
        places,
        point: false,
        whole: true,
    };
    let number = &text[start..end];
    for byte in number {
        s = with_byte(s, *byte);
    }
    s
}

// The places that no digit came for.
fn filled(n: usize, places: usize) -> usize
    requires { n ≤ most }
    ensures { (result ≡ filled grown n places) × (result ≤ most) }
{
    let mut m = n;
    for _place in 0..places {
        m = grown(m, 0);
    }
    m
}

// A number with its unit's places: its ticks, or that it is not whole.
fn time_of(text: &[u8], number: Spot, places: usize, went: Went) -> Formed
    requires { (number.start ≤ number.end) × (number.end ≤ length text.now) }
    ensures { Forms text.now result (time_of (token_of text.now number) places (lift text.now went)) }
{
    let s = sum_of(text, number.start, number.end, places);
    if s.whole {
        return Formed {
            went,
            value: filled(s.ticks, s.places) + 2,
            fault: None,
        };
    }
    Formed {
        went,
        value: ODD,
        fault: Some(Fault {
            rule: Rule::NoTime,
            place: number.start,
            why: Why::NotWhole,
        }),
    }
}

// NUMBER unit
pub fn time(text: &[u8], went: Went) -> Formed
    ensures { Forms text.now result (time_from (lift text.now went)) }
{
    let Ok(at) = went else {
        return unformed(went);
    };
    let number = spot_at(text, at);
    if number.kind != Kind::Number {
        return unformed(unfit(number, Why::Expected(Kind::Number)));
    }
    let unit = spot_at(text, number.end);
    if !is_name(unit.kind) {
        return odd(Ok(number.end), Rule::NoTime, number.start, Why::UnitMissing);
    }
    if unit.kind == Kind::Ms {
        return time_of(text, number, 0, Ok(unit.end));
    }
    if unit.kind == Kind::Sec {
        return time_of(text, number, 3, Ok(unit.end));
    }
    odd(Ok(unit.end), Rule::NoTime, unit.start, Why::UnitUnknown)
}

// A form that the text does not have.
fn unformed(went: Went) -> Formed
    ensures { result ≡ unformed went }
{
    Formed {
        went,
        value: 0,
        fault: None,
    }
}

// A number that is there and has a fault at a place.
fn odd(went: Went, rule: Rule, place: usize, why: Why) -> Formed
    ensures { result ≡ odd_at went rule place why }
{
    Formed {
        went,
        value: ODD,
        fault: Some(Fault { rule, place, why }),
    }
}
