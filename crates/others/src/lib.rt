// Other declarations, which are skipped up to their end; what they say about threads from outside is noted.
#![tactic(auto)]

ghost use Rattle.std.specs.Prelude.{◌≡◌};
ghost use Rattle.common.specs.Words.{ℕ, List, [], not};
ghost use Rattle.steps.specs.declared.faults.Fault.{Fault};
ghost use Rattle.steps.specs.Faults.{no_fault, worst};
ghost use Rattle.steps.specs.Steps.{◌⟫◌};
ghost use Rattle.steps.specs.Lifted.{lift, first, first_kind, second_kind};
ghost use Rattle.rows.specs.States.{state_of, does};
ghost use Rattle.others.specs.Others.{other_kind, outside_kind, reaching, ends_waiting, waiting_after, noted_at, last_kind, passing, path_end, other};
ghost use Rattle.others.specs.Laws.{noted_with};

use phrases::path;
use rows::{Reading, next_of, noted, on, second_of};
use steps::{Fault, Rule, Went, Why, any, start_of, symbol, worse};
use words::kinds::Kind;

#[tactic(auto, unfolding(crate::specs::Others::other_kind))]
pub fn begins_other(kind: Kind) -> bool
    ensures { result ≡ other_kind kind }
{
    matches!(
        kind,
        Kind::Abstract
            | Kind::Bus
            | Kind::Data
            | Kind::Device
            | Kind::Feature
            | Kind::Memory
            | Kind::Process
            | Kind::Processor
            | Kind::Property
            | Kind::Subprogram
            | Kind::System
            | Kind::Virtual
    )
}

// Whether properties in it may reach a thread from outside.
#[tactic(auto, unfolding(crate::specs::Others::outside_kind))]
fn is_outside(kind: Kind) -> bool
    ensures { result ≡ outside_kind kind }
{
    matches!(kind, Kind::Process | Kind::System)
}

// Whether a word is such a property, by what follows it.
#[tactic(auto, unfolding(crate::specs::Others::reaching, crate::specs::Others::reaches, crate::specs::Others::associates))]
fn is_reaching(kind: Kind, second: Kind) -> bool
    ensures { result ≡ reaching kind second }
{
    matches!(
        kind,
        Kind::Period
            | Kind::Deadline
            | Kind::DispatchProtocol
            | Kind::DispatchOffset
            | Kind::Priority
    ) && matches!(second, Kind::Becomes | Kind::Adds)
}

#[tactic(auto, unfolding(crate::specs::Others::ends_waiting))]
fn ends_waiting(kind: Kind) -> bool
    ensures { result ≡ ends_waiting kind }
{
    matches!(kind, Kind::Applies | Kind::Sign(b';'))
}

// The least of the words that wait for "applies", behind the next token.
fn waiting_after(
    text: &[u8],
    reading: Reading,
    outside: bool,
    waiting: Option<Fault>,
) -> Option<Fault>
    ensures { (w : List Fault) → waiting ≡ worst no_fault w →
        result ≡ worst no_fault (waiting_after outside w (first_kind (lift text.now reading.went))
        (second_kind (lift text.now reading.went))
        (first (lift text.now reading.went)).start) }
{
    let kind = next_of(text, reading);
    if ends_waiting(kind) {
        return None;
    }
    if !outside || !is_reaching(kind, second_of(text, reading)) {
        return waiting;
    }
    let went = reading.went;
    worse(
        waiting,
        Some(Fault {
            rule: Rule::Unfit,
            place: start_of(text, went),
            why: Why::FromOutside,
        }),
    )
}

// "applies" notes them.
fn noted_at(reading: Reading, kind: Kind, waiting: Option<Fault>) -> Reading
    ensures { (w : List Fault) → waiting ≡ worst no_fault w → result ≡ noted_with reading (noted_at w kind) }
{
    if kind == Kind::Applies {
        return noted(reading, waiting);
    }
    reading
}

#[tactic(auto, unfolding(crate::specs::Others::last_kind))]
fn goes_on(kind: Kind) -> bool
    ensures { result ≡ not (last_kind kind) }
{
    !matches!(kind, Kind::End | Kind::Ended)
}

// Any tokens up to the first "end".
fn passed(text: &[u8], reading: Reading, outside: bool) -> Reading
    ensures { (m : List ℕ) → state_of text.now result m
        ≡ does (state_of text.now reading m) (passing outside []) }
{
    let mut r = reading;
    let mut waiting = None;
    while goes_on(next_of(text, r)) {
        let here = r.went;
        let behind = noted_at(r, next_of(text, r), waiting);
        waiting = waiting_after(text, r, outside, waiting);
        r = on(behind, any(text, here));
    }
    r
}

// "end" path ";"
pub fn path_end(text: &[u8], went: Went) -> Went
    ensures { lift text.now result ≡ lift text.now went ⟫ path_end }
{
    symbol(
        text,
        path(text, symbol(text, went, Kind::End)),
        Kind::Sign(b';'),
    )
}

// An other declaration.
pub fn other(text: &[u8], reading: Reading) -> Reading
    ensures { (m : List ℕ) → state_of text.now result m ≡ does (state_of text.now reading m) other }
{
    let went = reading.went;
    let outside = is_outside(next_of(text, reading));
    let inner = passed(text, on(reading, any(text, went)), outside);
    let last = inner.went;
    on(inner, path_end(text, last))
}
