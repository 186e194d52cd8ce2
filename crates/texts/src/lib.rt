// A whole text: packages and declarations up to its end.
#![tactic(auto)]

ghost use Rattle.std.specs.Prelude.{◌≡◌, ◌&&◌};
ghost use Rattle.words.specs.Same.{same_kind};
ghost use Rattle.words.specs.Kinds.{PROCESS, IMPLEMENTATION};
ghost use Rattle.steps.specs.Steps.{◌⟫◌};
ghost use Rattle.steps.specs.Lifted.{lift};
ghost use Rattle.rows.specs.States.{state_of, does, begun};
ghost use Rattle.texts.specs.Texts.{declaration_kind, thread_by, chosen, declaration, none_or_some, clause_kind, clause, part_kind, part, parts};
ghost use Rattle.texts.specs.Texts.{packaged, piece_kind, piece, pieces, finished, whole_text};

use declarations::{process_implementation, thread_implementation, thread_type};
use others::{begins_other, other, path_end};
use phrases::{annex, nothing, path, paths};
use rows::{NO_PROPERTIES, Reading, begun, next_of, on, second_of, with_props};
use steps::{Rule, Went, Why, any, next, stop, symbol};
use values::associations;
use words::kinds::Kind;

#[tactic(auto, unfolding(crate::specs::Texts::declaration_kind))]
fn begins_declaration(kind: Kind) -> bool
    ensures { result ≡ declaration_kind kind }
{
    matches!(kind, Kind::Thread | Kind::Annex) || begins_other(kind)
}

// A declaration that begins with "thread".
fn thread_by(text: &[u8], rows: &mut [usize], reading: Reading) -> Reading
    ensures { state_of text.now result rows.new
        ≡ does (state_of text.now reading rows.old) thread_by }
{
    let second = second_of(text, reading);
    if second == Kind::Implementation {
        return thread_implementation(text, rows, reading);
    }
    if second == Kind::Group {
        return other(text, reading);
    }
    thread_type(text, rows, reading)
}

fn is_process(kind: Kind, second: Kind) -> bool
    ensures { result ≡ (same_kind kind PROCESS && same_kind second IMPLEMENTATION) }
{
    matches!((kind, second), (Kind::Process, Kind::Implementation))
}

fn chosen(text: &[u8], rows: &mut [usize], reading: Reading) -> Reading
    ensures { state_of text.now result rows.new
        ≡ does (state_of text.now reading rows.old) chosen }
{
    let kind = next_of(text, reading);
    let went = reading.went;
    if kind == Kind::Thread {
        return thread_by(text, rows, reading);
    }
    if kind == Kind::Annex {
        return on(reading, annex(text, went));
    }
    if is_process(kind, second_of(text, reading)) {
        return process_implementation(text, rows, reading);
    }
    other(text, reading)
}

// A declaration has properties of its own.
fn declaration(text: &[u8], rows: &mut [usize], reading: Reading) -> Reading
    ensures { state_of text.now result rows.new
        ≡ does (state_of text.now reading rows.old) declaration }
{
    let props = reading.props;
    let fresh = with_props(reading, NO_PROPERTIES);
    with_props(chosen(text, rows, fresh), props)
}

// "none" ";" | { association }
fn none_or_some(text: &[u8], went: Went) -> Went
    ensures { lift text.now result ≡ lift text.now went ⟫ none_or_some }
{
    if next(text, went) == Kind::None {
        return nothing(text, went);
    }
    associations(text, went)
}

#[tactic(auto, unfolding(crate::specs::Texts::clause_kind))]
fn begins_clause(kind: Kind) -> bool
    ensures { result ≡ clause_kind kind }
{
    matches!(
        kind,
        Kind::Public | Kind::Private | Kind::With | Kind::Properties
    )
}

// "public" | "private" | "with" path { "," path } ";" | "properties" associations
fn clause(text: &[u8], went: Went) -> Went
    ensures { lift text.now result ≡ lift text.now went ⟫ clause }
{
    let kind = next(text, went);
    if kind == Kind::With {
        return paths(text, symbol(text, went, Kind::With));
    }
    if kind == Kind::Properties {
        return none_or_some(text, symbol(text, went, Kind::Properties));
    }
    any(text, went)
}

#[tactic(auto, unfolding(crate::specs::Texts::part_kind))]
fn begins_part(kind: Kind) -> bool
    ensures { result ≡ part_kind kind }
{
    begins_clause(kind) || begins_declaration(kind)
}

fn part(text: &[u8], rows: &mut [usize], reading: Reading) -> Reading
    ensures { state_of text.now result rows.new ≡ does (state_of text.now reading rows.old) part }
{
    let went = reading.went;
    if begins_clause(next(text, went)) {
        return on(reading, clause(text, went));
    }
    declaration(text, rows, reading)
}

fn parts(text: &[u8], rows: &mut [usize], reading: Reading) -> Reading
    ensures { state_of text.now result rows.new
        ≡ does (state_of text.now reading rows.old) parts }
{
    let mut r = reading;
    while begins_part(next_of(text, r)) {
        r = part(text, rows, r);
    }
    r
}

// "package" path { .. } "end" path ";"
fn packaged(text: &[u8], rows: &mut [usize], reading: Reading) -> Reading
    ensures { state_of text.now result rows.new
        ≡ does (state_of text.now reading rows.old) packaged }
{
    let went = reading.went;
    let head = on(reading, path(text, symbol(text, went, Kind::Package)));
    let inner = parts(text, rows, head);
    let last = inner.went;
    on(inner, path_end(text, last))
}

#[tactic(auto, unfolding(crate::specs::Texts::piece_kind))]
fn begins_piece(kind: Kind) -> bool
    ensures { result ≡ piece_kind kind }
{
    kind == Kind::Package || begins_declaration(kind)
}

fn piece(text: &[u8], rows: &mut [usize], reading: Reading) -> Reading
    ensures { state_of text.now result rows.new
        ≡ does (state_of text.now reading rows.old) piece }
{
    if next_of(text, reading) == Kind::Package {
        return packaged(text, rows, reading);
    }
    declaration(text, rows, reading)
}

fn pieces(text: &[u8], rows: &mut [usize], reading: Reading) -> Reading
    ensures { state_of text.now result rows.new
        ≡ does (state_of text.now reading rows.old) pieces }
{
    let mut r = reading;
    while begins_piece(next_of(text, r)) {
        r = piece(text, rows, r);
    }
    r
}

// The text's end, or 20.
fn end(text: &[u8], went: Went) -> Went
    ensures { lift text.now result ≡ lift text.now went ⟫ finished }
{
    if next(text, went) == Kind::Ended {
        return went;
    }
    stop(text, went, Rule::Unfit, Why::ADeclaration)
}

// A whole plain text, from its first byte on.
pub fn read(text: &[u8], rows: &mut [usize]) -> Reading
    ensures { state_of text.now result rows.new
        ≡ does (state_of text.now begun rows.old) whole_text }
{
    let whole = pieces(text, rows, begun());
    let last = whole.went;
    on(whole, end(text, last))
}
