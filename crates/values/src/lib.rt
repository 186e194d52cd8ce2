// Values of properties, associations and blocks of them, skipped: where each ends, whatever the text.
#![tactic(auto)]

ghost use Rattle.std.specs.Prelude.{◌≡◌};
ghost use Rattle.steps.specs.Steps.{◌⟫◌};
ghost use Rattle.steps.specs.Lifted.{lift};
ghost use Rattle.values.specs.Values.{part_kind, value_of, values_by, list_by, record_by, part_of, value, values, scoped, assigns, association};
ghost use Rattle.values.specs.Values.{associations, block};

use steps::{Rule, Went, Why, any, is_name, name, next, stop, symbol};
use words::kinds::Kind;

// How many brackets may be open within one value.
const DEPTH: usize = 8;

// Whether a part of a value may begin with a token of this kind. It is asked twice for each part.
#[inline(always)]
fn begins_part(kind: Kind) -> bool
    ensures { result ≡ part_kind kind }
{
    !matches!(
        kind,
        Kind::Sign(b')')
            | Kind::Sign(b']')
            | Kind::Sign(b'{')
            | Kind::Sign(b'}')
            | Kind::Sign(b',')
            | Kind::Sign(b';')
            | Kind::Becomes
            | Kind::Adds
            | Kind::End
            | Kind::Ended
    )
}

// part { part }; `depth` more brackets may open.
#[cycle(skip_list_skip_part_skip_record_skip_value_skip_values)]
fn skip_value(text: &[u8], went: Went, depth: usize) -> Went
    ensures { lift text.now result ≡ lift text.now went ⟫ value_of depth }
{
    let mut w = skip_part(text, went, depth);
    while begins_part(next(text, w)) {
        w = skip_part(text, w, depth);
    }
    w
}

// A list, a record or an atom.
#[cycle(skip_list_skip_part_skip_record_skip_value_skip_values)]
fn skip_part(text: &[u8], went: Went, depth: usize) -> Went
    ensures { lift text.now result ≡ lift text.now went ⟫ part_of depth }
{
    let kind = next(text, went);
    if kind == Kind::Sign(b'(') {
        if depth == 0 {
            return stop(text, went, Rule::TooDeep, Why::TooDeep);
        }
        return skip_list(text, symbol(text, went, Kind::Sign(b'(')), depth - 1);
    }
    if kind == Kind::Sign(b'[') {
        if depth == 0 {
            return stop(text, went, Rule::TooDeep, Why::TooDeep);
        }
        return skip_record(text, symbol(text, went, Kind::Sign(b'[')), depth - 1);
    }
    if begins_part(kind) {
        return any(text, went);
    }
    stop(text, went, Rule::Unfit, Why::AValue)
}

// A list from behind its bracket on.
#[cycle(skip_list_skip_part_skip_record_skip_value_skip_values)]
fn skip_list(text: &[u8], went: Went, depth: usize) -> Went
    ensures { lift text.now result ≡ lift text.now went ⟫ list_by (value_of depth) }
{
    if next(text, went) == Kind::Sign(b')') {
        return symbol(text, went, Kind::Sign(b')'));
    }
    symbol(text, skip_values(text, went, depth), Kind::Sign(b')'))
}

// value { "," value }
#[cycle(skip_list_skip_part_skip_record_skip_value_skip_values)]
fn skip_values(text: &[u8], went: Went, depth: usize) -> Went
    ensures { lift text.now result ≡ lift text.now went ⟫ values_by (value_of depth) }
{
    let mut w = skip_value(text, went, depth);
    while next(text, w) == Kind::Sign(b',') {
        w = skip_value(text, symbol(text, w, Kind::Sign(b',')), depth);
    }
    w
}

// A record from behind its bracket on.
#[cycle(skip_list_skip_part_skip_record_skip_value_skip_values)]
fn skip_record(text: &[u8], went: Went, depth: usize) -> Went
    ensures { lift text.now result ≡ lift text.now went ⟫ record_by (value_of depth) }
{
    let mut w = went;
    while is_name(next(text, w)) {
        let assigned = symbol(text, name(text, w), Kind::Becomes);
        w = symbol(text, skip_value(text, assigned, depth), Kind::Sign(b';'));
    }
    symbol(text, w, Kind::Sign(b']'))
}

// One value, as deep as a value may be.
pub fn value(text: &[u8], went: Went) -> Went
    ensures { lift text.now result ≡ lift text.now went ⟫ value }
{
    skip_value(text, went, DEPTH)
}

// value { "," value }
fn values(text: &[u8], went: Went) -> Went
    ensures { lift text.now result ≡ lift text.now went ⟫ values }
{
    skip_values(text, went, DEPTH)
}

// NAME { "::" NAME }
pub fn scoped(text: &[u8], went: Went) -> Went
    ensures { lift text.now result ≡ lift text.now went ⟫ scoped }
{
    let mut w = name(text, went);
    while next(text, w) == Kind::Scope {
        w = name(text, symbol(text, w, Kind::Scope));
    }
    w
}

// "=>" | "+=>"
fn assigns(text: &[u8], went: Went) -> Went
    ensures { lift text.now result ≡ lift text.now went ⟫ assigns }
{
    if next(text, went) == Kind::Adds {
        return symbol(text, went, Kind::Adds);
    }
    symbol(text, went, Kind::Becomes)
}

pub fn association(text: &[u8], went: Went) -> Went
    ensures { lift text.now result ≡ lift text.now went ⟫ association }
{
    symbol(
        text,
        values(text, assigns(text, scoped(text, went))),
        Kind::Sign(b';'),
    )
}

// { association }
pub fn associations(text: &[u8], went: Went) -> Went
    ensures { lift text.now result ≡ lift text.now went ⟫ associations }
{
    let mut w = went;
    while is_name(next(text, w)) {
        w = association(text, w);
    }
    w
}

// "{" { association } "}"
pub fn block(text: &[u8], went: Went) -> Went
    ensures { lift text.now result ≡ lift text.now went ⟫ block }
{
    symbol(
        text,
        associations(text, symbol(text, went, Kind::Sign(b'{'))),
        Kind::Sign(b'}'),
    )
}
