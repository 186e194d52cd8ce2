// The properties that are read: which one an association gives, the forms of their values, and blocks and sections of them.
#![tactic(auto)]

ghost use Rattle.std.specs.Prelude.{◌≡◌, ◌<◌};
ghost use Rattle.common.specs.Words.{ℕ, List, true};
ghost use Rattle.steps.specs.Lifted.{lift, holds};
ghost use Rattle.times.specs.Sums.{Forms};
ghost use Rattle.rows.specs.States.{state_of, does};
ghost use Rattle.properties.specs.Properties.{named_by, set_of, property_by, property_at, read_in, form, owned, skipped_in, association_in};
ghost use Rattle.properties.specs.Properties.{associations_in, maybe_block_in, properties_in, right_by, one_if};

use phrases::nothing;
use rows::{Reading, next_of, noted, on, symbol_on};
use steps::{Fault, Rule, Went, Why, any, is_name, name, next, second, start_of, symbol, worse};
use times::priorities::priority;
use times::{Formed, time};
use values::{association, scoped, value};
use words::kinds::Kind;

// Their places among the properties, and that of any other property.
pub const PERIOD: usize = 0;

pub const DEADLINE: usize = 1;

pub const PROTOCOL: usize = 2;

pub const OFFSET: usize = 3;

pub const PRIORITY: usize = 4;

pub const TIMING: usize = 5;

const ANOTHER: usize = 6;

// What the properties where an association stands are of.
#[derive(Clone, Copy, PartialEq, Eq)]
pub enum Of {
    Thread,
    Port,
    Process,
}

// The property that a name means by itself.
#[tactic(auto, using(words::specs::Same::kind_differs, common::specs::Tests::tests), unfolding(crate::specs::Properties::named_by))]
fn named_by(kind: Kind) -> usize
    ensures { result ≡ named_by kind }
{
    match kind {
        Kind::Period => PERIOD,
        Kind::Deadline => DEADLINE,
        Kind::DispatchProtocol => PROTOCOL,
        Kind::DispatchOffset => OFFSET,
        Kind::Priority => PRIORITY,
        Kind::Timing => TIMING,
        _ => ANOTHER,
    }
}

// The set that a property's name may stand in.
#[tactic(auto, using(words::specs::Same::kind_differs, common::specs::Tests::tests), unfolding(crate::specs::Properties::set_of))]
fn set_of(property: usize) -> Kind
    ensures { result ≡ set_of property }
{
    match property {
        PROTOCOL | PRIORITY => Kind::ThreadProperties,
        TIMING => Kind::CommunicationProperties,
        _ => Kind::TimingProperties,
    }
}

// Which property stands here.
fn property_at(text: &[u8], went: Went) -> usize
    ensures { result ≡ property_at (lift text.now went) }
{
    let kind = next(text, went);
    if second(text, went) != Kind::Scope {
        return named_by(kind);
    }
    let inner = any(text, any(text, went));
    if second(text, inner) == Kind::Scope {
        return ANOTHER;
    }
    let property = named_by(next(text, inner));
    if kind == set_of(property) {
        return property;
    }
    ANOTHER
}

// Whether a property is read in a place of this sort.
#[tactic(auto, using(common::specs::Tests::tests), unfolding(crate::specs::Properties::read_in))]
fn is_read(of: Of, property: usize) -> bool
    ensures { result ≡ read_in of property }
{
    match of {
        Of::Thread => property < TIMING,
        Of::Port => property == TIMING,
        Of::Process => false,
    }
}

// 1 for the name that is right for a property, 2 for any other.
fn rightness(property: usize, kind: Kind) -> usize
    ensures { result ≡ right_by property kind }
{
    if property == PROTOCOL {
        return one_if(kind == Kind::Periodic);
    }
    one_if(kind == Kind::Delayed)
}

fn one_if(right: bool) -> usize
    ensures { result ≡ one_if right }
{
    if right { 1 } else { 2 }
}

// The value of a property, by its form.
fn form(text: &[u8], went: Went, property: usize) -> Formed
    ensures { Forms text.now result (form property (lift text.now went)) }
{
    if property < PROTOCOL {
        return time(text, went);
    }
    if property == OFFSET {
        return Formed {
            went: value(text, went),
            value: 1,
            fault: None,
        };
    }
    if property == PRIORITY {
        return priority(text, went);
    }
    Formed {
        went: name(text, went),
        value: rightness(property, next(text, went)),
        fault: None,
    }
}

// A property that is read: the first counts, a second is noted.
fn owned(text: &[u8], reading: Reading, property: usize) -> Reading
    requires { (property < 6) × (holds (λ ts. true) (lift text.now reading.went) ≡ true) }
    ensures { (m : List ℕ) → state_of text.now result m ≡ does (state_of text.now reading m) (owned property) }
{
    let went = reading.went;
    let before = reading.fault;
    let mut props = reading.props;
    let f = form(
        text,
        symbol(text, scoped(text, went), Kind::Becomes),
        property,
    );
    let formed = f.went;
    let fault = f.fault;
    let closed = symbol(text, formed, Kind::Sign(b';'));
    if props[property] == 0 {
        props[property] = f.value;
        return Reading {
            went: closed,
            props,
            count: reading.count,
            fault: worse(before, fault),
        };
    }
    let again = Some(Fault {
        rule: Rule::Unfit,
        place: start_of(text, went),
        why: Why::SecondTime,
    });
    Reading {
        went: closed,
        props,
        count: reading.count,
        fault: worse(worse(before, again), fault),
    }
}

// A property that would reach threads from outside is noted, and skipped.
fn skipped_in(text: &[u8], reading: Reading, of: Of, property: usize) -> Reading
    requires { property ≡ property_at (lift text.now reading.went) }
    ensures { (m : List ℕ) → state_of text.now result m ≡ does (state_of text.now reading m) (skipped_in of) }
{
    let went = reading.went;
    let skipped = on(reading, association(text, went));
    if of != Of::Process {
        return skipped;
    }
    if property < TIMING {
        return noted(
            skipped,
            Some(Fault {
                rule: Rule::Unfit,
                place: start_of(text, went),
                why: Why::FromOutside,
            }),
        );
    }
    skipped
}

// One association, by where it stands.
fn association_in(text: &[u8], reading: Reading, of: Of) -> Reading
    ensures { (m : List ℕ) → state_of text.now result m ≡ does (state_of text.now reading m) (association_in of) }
{
    let went = reading.went;
    let property = property_at(text, went);
    if is_read(of, property) {
        return owned(text, reading, property);
    }
    skipped_in(text, reading, of, property)
}

// { association }
fn associations_in(text: &[u8], reading: Reading, of: Of) -> Reading
    ensures { (m : List ℕ) → state_of text.now result m
        ≡ does (state_of text.now reading m) (associations_in of) }
{
    let mut r = reading;
    while is_name(next_of(text, r)) {
        r = association_in(text, r, of);
    }
    r
}

// [ "{" { association } "}" ]
pub fn maybe_block_in(text: &[u8], reading: Reading, of: Of) -> Reading
    ensures { (m : List ℕ) → state_of text.now result m ≡ does (state_of text.now reading m) (maybe_block_in of) }
{
    if next_of(text, reading) != Kind::Sign(b'{') {
        return reading;
    }
    let inner = associations_in(text, symbol_on(text, reading, Kind::Sign(b'{')), of);
    symbol_on(text, inner, Kind::Sign(b'}'))
}

// "properties" ( "none" ";" | { association } )
pub fn properties_in(text: &[u8], reading: Reading, of: Of) -> Reading
    ensures { (m : List ℕ) → state_of text.now result m ≡ does (state_of text.now reading m) (properties_in of) }
{
    let inner = symbol_on(text, reading, Kind::Properties);
    if next_of(text, inner) == Kind::None {
        let went = inner.went;
        return on(inner, nothing(text, went));
    }
    associations_in(text, inner, of)
}
