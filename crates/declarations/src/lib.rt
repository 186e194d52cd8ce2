// Thread types, thread implementations and process implementations, with their sections.
#![tactic(auto)]

ghost use Rattle.std.specs.Prelude.{◌≡◌};
ghost use Rattle.common.specs.Words.{ℕ, List};
ghost use Rattle.tokens.specs.Tokens.{from};
ghost use Rattle.steps.specs.Steps.{◌⟫◌, head};
ghost use Rattle.steps.specs.Lifted.{lift};
ghost use Rattle.rows.specs.Rows.{begun_by};
ghost use Rattle.rows.specs.States.{state_of, does};
ghost use Rattle.declarations.specs.Sections.{list_kind, allowed, listed, list_in, properties_of, section, sections};
ghost use Rattle.declarations.specs.Declarations.{maybe_extends, type_end, thread_type, implementation_end, implementation, thread_implementation};
ghost use Rattle.declarations.specs.Declarations.{process_implementation};

use features::features;
use links::connections;
use phrases::{begins_section, classifier, nothing, scopes, skipped};
use properties::{Of, properties_in};
use rows::{NO_PROPERTIES, Reading, Sort, merged, next_of, on, put, symbol_on, with_props};
use steps::{Went, name, next, own, start_of, symbol};
use threads::subcomponents;
use words::kinds::Kind;

// Whether a section of a list begins with this word here.
#[tactic(auto, unfolding(crate::specs::Sections::list_kind))]
fn begins_list(of: Sort, kind: Kind) -> bool
    ensures { result ≡ list_kind (begun_by of) kind }
{
    match of {
        Sort::Type => kind == Kind::Features,
        Sort::Process => matches!(kind, Kind::Subcomponents | Kind::Connections),
        _ => false,
    }
}

// Whether any section begins with this word here.
#[tactic(auto, unfolding(crate::specs::Sections::allowed))]
fn begins(of: Sort, kind: Kind) -> bool
    ensures { result ≡ allowed (begun_by of) kind }
{
    match kind {
        Kind::Features => matches!(of, Sort::Type),
        Kind::Modes => !matches!(of, Sort::Process),
        _ => begins_section(kind),
    }
}

// { feature } | { subcomponent } | { connection }
fn listed(text: &[u8], rows: &mut [usize], reading: Reading, word: Kind, place: usize) -> Reading
    ensures { state_of text.now result rows.new
        ≡ does (state_of text.now reading rows.old) (listed word place) }
{
    if word == Kind::Features {
        return features(text, rows, reading, place);
    }
    if word == Kind::Subcomponents {
        return subcomponents(text, rows, reading, place);
    }
    connections(text, rows, reading, place)
}

// Its word, then ( "none" ";" | { .. } )
fn list_in(text: &[u8], rows: &mut [usize], reading: Reading, word: Kind, place: usize) -> Reading
    ensures { state_of text.now result rows.new
        ≡ does (state_of text.now reading rows.old) (list_in word place) }
{
    let inner = symbol_on(text, reading, word);
    let went = inner.went;
    if next(text, went) == Kind::None {
        return on(inner, nothing(text, went));
    }
    listed(text, rows, inner, word, place)
}

// "properties" associations: a thread's count, those of a process are noted.
fn properties_of(text: &[u8], reading: Reading, of: Sort) -> Reading
    ensures { (m : List ℕ) → state_of text.now result m ≡ does (state_of text.now reading m) (properties_of (begun_by of)) }
{
    if let Sort::Process = of {
        return properties_in(text, reading, Of::Process);
    }
    let went = reading.went;
    let Ok(_) = went else {
        return reading;
    };
    let before = reading.props;
    let inner = properties_in(text, with_props(reading, NO_PROPERTIES), Of::Thread);
    let found = inner.props;
    with_props(inner, merged(before, found))
}

fn section(text: &[u8], rows: &mut [usize], reading: Reading, of: Sort, place: usize) -> Reading
    ensures { state_of text.now result rows.new
        ≡ does (state_of text.now reading rows.old) (section (begun_by of) place) }
{
    let kind = next_of(text, reading);
    if begins_list(of, kind) {
        return list_in(text, rows, reading, kind, place);
    }
    if kind == Kind::Properties {
        return properties_of(text, reading, of);
    }
    let went = reading.went;
    on(reading, skipped(text, went))
}

// { section }
fn sections(text: &[u8], rows: &mut [usize], reading: Reading, of: Sort, place: usize) -> Reading
    ensures { state_of text.now result rows.new
        ≡ does (state_of text.now reading rows.old) (sections (begun_by of) place) }
{
    let mut r = reading;
    while begins(of, next_of(text, r)) {
        r = section(text, rows, r, of, place);
    }
    r
}

// [ "extends" classifier ]
fn maybe_extends(text: &[u8], went: Went) -> Went
    ensures { lift text.now result ≡ lift text.now went ⟫ maybe_extends }
{
    if next(text, went) != Kind::Extends {
        return went;
    }
    classifier(text, symbol(text, went, Kind::Extends))
}

// "end" NAME ";", the NAME that stands at `named`
fn type_end(text: &[u8], went: Went, named: usize) -> Went
    ensures { lift text.now result ≡ lift text.now went ⟫ type_end (head (from text.now named)) }
{
    symbol(
        text,
        own(text, symbol(text, went, Kind::End), named),
        Kind::Sign(b';'),
    )
}

// "thread" NAME [ "extends" classifier ] { section } "end" NAME ";"
pub fn thread_type(text: &[u8], rows: &mut [usize], reading: Reading) -> Reading
    ensures { state_of text.now result rows.new
        ≡ does (state_of text.now reading rows.old) thread_type }
{
    let went = reading.went;
    let before = symbol(text, went, Kind::Thread);
    let named = start_of(text, before);
    let behind = name(text, before);
    let parent = start_of(text, scopes(text, symbol(text, behind, Kind::Extends)));
    let head = on(reading, maybe_extends(text, behind));
    let inner = sections(text, rows, head, Sort::Type, named);
    let last = inner.went;
    let whole = on(inner, type_end(text, last, named));
    let p = whole.props;
    put(
        rows,
        whole,
        [
            Sort::Type as usize,
            0,
            named,
            parent,
            0,
            p[0],
            p[1],
            p[2],
            p[3],
            p[4],
        ],
    )
}

// "end" NAME "." NAME ";", the NAMEs that stand at two places
fn implementation_end(text: &[u8], went: Went, first: usize, second: usize) -> Went
    ensures { lift text.now result ≡ lift text.now went
        ⟫ implementation_end (head (from text.now first)) (head (from text.now second)) }
{
    let typed = symbol(
        text,
        own(text, symbol(text, went, Kind::End), first),
        Kind::Sign(b'.'),
    );
    symbol(text, own(text, typed, second), Kind::Sign(b';'))
}

// Its word, "implementation" NAME "." NAME { section } "end" NAME "." NAME ";"
fn implementation(
    text: &[u8],
    rows: &mut [usize],
    reading: Reading,
    word: Kind,
    of: Sort,
    place: usize,
) -> Reading
    ensures { state_of text.now result rows.new
        ≡ does (state_of text.now reading rows.old) (implementation word (begun_by of) place) }
{
    let went = reading.went;
    let typed = symbol(text, symbol(text, went, word), Kind::Implementation);
    let made = symbol(text, name(text, typed), Kind::Sign(b'.'));
    let first = start_of(text, typed);
    let second = start_of(text, made);
    let inner = sections(text, rows, on(reading, name(text, made)), of, place);
    let last = inner.went;
    on(inner, implementation_end(text, last, first, second))
}

// "thread" "implementation" ..
pub fn thread_implementation(text: &[u8], rows: &mut [usize], reading: Reading) -> Reading
    ensures { state_of text.now result rows.new
        ≡ does (state_of text.now reading rows.old) thread_implementation }
{
    let went = reading.went;
    let typed = symbol(text, symbol(text, went, Kind::Thread), Kind::Implementation);
    let first = start_of(text, typed);
    let second = start_of(text, symbol(text, name(text, typed), Kind::Sign(b'.')));
    let whole = implementation(text, rows, reading, Kind::Thread, Sort::Implementation, 0);
    let p = whole.props;
    put(
        rows,
        whole,
        [
            Sort::Implementation as usize,
            0,
            first,
            0,
            second,
            p[0],
            p[1],
            p[2],
            p[3],
            p[4],
        ],
    )
}

// "process" "implementation" ..
pub fn process_implementation(text: &[u8], rows: &mut [usize], reading: Reading) -> Reading
    ensures { state_of text.now result rows.new
        ≡ does (state_of text.now reading rows.old) process_implementation }
{
    let went = reading.went;
    let place = start_of(text, went);
    let whole = implementation(text, rows, reading, Kind::Process, Sort::Process, place);
    put(
        rows,
        whole,
        [Sort::Process as usize, place, place, 0, 0, 0, 0, 0, 0, 0],
    )
}
