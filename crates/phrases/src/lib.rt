// Rules that declare nothing by themselves: classifiers, paths, directions, kinds of ports, what is skipped.
#![tactic(auto)]

ghost use Rattle.std.specs.Prelude.{◌≡◌};
ghost use Rattle.steps.specs.Steps.{◌⟫◌, the, is, optional};
ghost use Rattle.words.specs.Kinds.{OPEN_BRACE};
ghost use Rattle.steps.specs.Lifted.{lift};
ghost use Rattle.values.specs.Values.{block};
ghost use Rattle.phrases.specs.Phrases.{rest_kind, rest, scopes, dotted, classifier, join_kind, path, paths, annex, direction, port_kind, link_kind};
ghost use Rattle.phrases.specs.Phrases.{place, arrow, nothing, section_kind, skip_kind, skipped, label, maybe_label, maybe_classifier, word_and_rest};

use steps::{Went, any, is_name, name, next, second, symbol};
use values::block;
use words::kinds::Kind;

// [ kind ]
fn maybe(text: &[u8], went: Went, kind: Kind) -> Went
    ensures { lift text.now result ≡ lift text.now went ⟫ optional (is kind) (the kind) }
{
    if next(text, went) == kind {
        return symbol(text, went, kind);
    }
    went
}

#[tactic(auto, using(words::specs::Same::kind_differs, common::specs::Tests::tests), unfolding(crate::specs::Phrases::rest_kind))]
fn in_rest(kind: Kind) -> bool
    ensures { result ≡ rest_kind kind }
{
    !matches!(
        kind,
        Kind::Sign(b'{') | Kind::Sign(b';') | Kind::End | Kind::Ended
    )
}

// [ block ]
fn maybe_block(text: &[u8], went: Went) -> Went
    ensures { lift text.now result ≡ lift text.now went ⟫ optional (is OPEN_BRACE) block }
{
    if next(text, went) == Kind::Sign(b'{') {
        return block(text, went);
    }
    went
}

// Any tokens up to a block or the semicolon, and these.
pub fn rest(text: &[u8], went: Went) -> Went
    ensures { lift text.now result ≡ lift text.now went ⟫ rest }
{
    let mut w = went;
    while in_rest(next(text, w)) {
        w = any(text, w);
    }
    symbol(text, maybe_block(text, w), Kind::Sign(b';'))
}

// { NAME "::" }
pub fn scopes(text: &[u8], went: Went) -> Went
    ensures { lift text.now result ≡ lift text.now went ⟫ scopes }
{
    let mut w = went;
    while second(text, w) == Kind::Scope {
        w = symbol(text, name(text, w), Kind::Scope);
    }
    w
}

// [ "." NAME ]
pub fn dotted(text: &[u8], went: Went) -> Went
    ensures { lift text.now result ≡ lift text.now went ⟫ dotted }
{
    if next(text, went) == Kind::Sign(b'.') {
        return name(text, symbol(text, went, Kind::Sign(b'.')));
    }
    went
}

// { NAME "::" } NAME [ "." NAME ]
pub fn classifier(text: &[u8], went: Went) -> Went
    ensures { lift text.now result ≡ lift text.now went ⟫ classifier }
{
    dotted(text, name(text, scopes(text, went)))
}

#[tactic(auto, using(words::specs::Same::kind_differs, common::specs::Tests::tests), unfolding(crate::specs::Phrases::join_kind))]
fn joins(kind: Kind) -> bool
    ensures { result ≡ join_kind kind }
{
    matches!(kind, Kind::Scope | Kind::Sign(b'.'))
}

// NAME { ( "::" | "." ) NAME }
pub fn path(text: &[u8], went: Went) -> Went
    ensures { lift text.now result ≡ lift text.now went ⟫ path }
{
    let mut w = name(text, went);
    while joins(next(text, w)) {
        w = name(text, any(text, w));
    }
    w
}

// path { "," path } ";"
pub fn paths(text: &[u8], went: Went) -> Went
    ensures { lift text.now result ≡ lift text.now went ⟫ paths }
{
    let mut w = path(text, went);
    while next(text, w) == Kind::Sign(b',') {
        w = path(text, symbol(text, w, Kind::Sign(b',')));
    }
    symbol(text, w, Kind::Sign(b';'))
}

// "annex" NAME ANNEX ";"
pub fn annex(text: &[u8], went: Went) -> Went
    ensures { lift text.now result ≡ lift text.now went ⟫ annex }
{
    let named = name(text, symbol(text, went, Kind::Annex));
    symbol(
        text,
        symbol(text, named, Kind::Sign(b'A')),
        Kind::Sign(b';'),
    )
}

// "in" [ "out" ] | "out"
pub fn direction(text: &[u8], went: Went) -> Went
    ensures { lift text.now result ≡ lift text.now went ⟫ direction }
{
    if next(text, went) == Kind::In {
        return maybe(text, symbol(text, went, Kind::In), Kind::Out);
    }
    symbol(text, went, Kind::Out)
}

// "data" "port" | "event" [ "data" ] "port"
pub fn port_kind(text: &[u8], went: Went) -> Went
    ensures { lift text.now result ≡ lift text.now went ⟫ port_kind }
{
    if next(text, went) == Kind::Data {
        return symbol(text, symbol(text, went, Kind::Data), Kind::Port);
    }
    symbol(
        text,
        maybe(text, symbol(text, went, Kind::Event), Kind::Data),
        Kind::Port,
    )
}

// "port" | "data" "port" | "event" [ "data" ] "port"
pub fn link_kind(text: &[u8], went: Went) -> Went
    ensures { lift text.now result ≡ lift text.now went ⟫ link_kind }
{
    if next(text, went) == Kind::Port {
        return symbol(text, went, Kind::Port);
    }
    port_kind(text, went)
}

// NAME [ "." NAME ]
pub fn place(text: &[u8], went: Went) -> Went
    ensures { lift text.now result ≡ lift text.now went ⟫ place }
{
    dotted(text, name(text, went))
}

// "->" | "->>"
pub fn arrow(text: &[u8], went: Went) -> Went
    ensures { lift text.now result ≡ lift text.now went ⟫ arrow }
{
    if next(text, went) == Kind::Delaying {
        return symbol(text, went, Kind::Delaying);
    }
    symbol(text, went, Kind::Arrow)
}

// "none" ";"
pub fn nothing(text: &[u8], went: Went) -> Went
    ensures { lift text.now result ≡ lift text.now went ⟫ nothing }
{
    symbol(text, symbol(text, went, Kind::None), Kind::Sign(b';'))
}

// A word that begins a section.
#[tactic(auto, using(words::specs::Same::kind_differs, common::specs::Tests::tests), unfolding(crate::specs::Phrases::section_kind))]
pub fn begins_section(kind: Kind) -> bool
    ensures { result ≡ section_kind kind }
{
    matches!(
        kind,
        Kind::Annex
            | Kind::Calls
            | Kind::Connections
            | Kind::Features
            | Kind::Flows
            | Kind::Modes
            | Kind::Properties
            | Kind::Prototypes
            | Kind::Subcomponents
    )
}

#[tactic(auto, using(words::specs::Same::kind_differs, common::specs::Tests::tests), unfolding(crate::specs::Phrases::skip_kind))]
fn in_section(kind: Kind) -> bool
    ensures { result ≡ skip_kind kind }
{
    !begins_section(kind) && !matches!(kind, Kind::End | Kind::Ended)
}

// A section's word, and any tokens up to the next section or the end.
pub fn skipped(text: &[u8], went: Went) -> Went
    ensures { lift text.now result ≡ lift text.now went ⟫ skipped }
{
    let mut w = any(text, went);
    while in_section(next(text, w)) {
        w = any(text, w);
    }
    w
}

// NAME ":"
pub fn label(text: &[u8], went: Went) -> Went
    ensures { lift text.now result ≡ lift text.now went ⟫ label }
{
    symbol(text, name(text, went), Kind::Sign(b':'))
}

// [ NAME ":" ]
pub fn maybe_label(text: &[u8], went: Went) -> Went
    ensures { lift text.now result ≡ lift text.now went ⟫ maybe_label }
{
    if is_name(next(text, went)) {
        return label(text, went);
    }
    went
}

// [ classifier ]
pub fn maybe_classifier(text: &[u8], went: Went) -> Went
    ensures { lift text.now result ≡ lift text.now went ⟫ maybe_classifier }
{
    if is_name(next(text, went)) {
        return classifier(text, went);
    }
    went
}

// A word, and the rest of what it begins.
pub fn word_and_rest(text: &[u8], went: Went) -> Went
    ensures { lift text.now result ≡ lift text.now went ⟫ word_and_rest }
{
    rest(text, any(text, went))
}
