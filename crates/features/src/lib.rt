// Features of a thread type: its ports are declared, other features are skipped.
#![tactic(auto)]

ghost use Rattle.std.specs.Prelude.{◌≡◌};
ghost use Rattle.steps.specs.Steps.{◌⟫◌};
ghost use Rattle.steps.specs.Lifted.{lift};
ghost use Rattle.rows.specs.States.{state_of, does};
ghost use Rattle.features.specs.Features.{direction_of, port_head, port, other_feature, feature_of, feature, features};

use phrases::{direction, label, maybe_classifier, port_kind, word_and_rest};
use properties::{Of, TIMING, maybe_block_in};
use rows::{NO_PROPERTIES, Reading, Sort, next_of, on, put, symbol_on, with_props};
use steps::{Went, is_name, next, second, start_of};
use words::kinds::Kind;

// 1 in, 2 out, 3 in out
fn direction_of(text: &[u8], went: Went) -> usize
    ensures { result ≡ direction_of (lift text.now went) }
{
    if next(text, went) != Kind::In {
        return 2;
    }
    if second(text, went) == Kind::Out {
        return 3;
    }
    1
}

// A port, up to its block.
fn port_head(text: &[u8], went: Went) -> Went
    ensures { lift text.now result ≡ lift text.now went ⟫ port_head }
{
    maybe_classifier(text, port_kind(text, direction(text, went)))
}

// A port of the type whose name stands at `owner`; its own name stands at `named`.
fn port(text: &[u8], rows: &mut [usize], reading: Reading, owner: usize, named: usize) -> Reading
    ensures { state_of text.now result rows.new
        ≡ does (state_of text.now reading rows.old) (port owner named) }
{
    let went = reading.went;
    let way = direction_of(text, went);
    let head = on(reading, port_head(text, went));
    let whole = symbol_on(text, maybe_block_in(text, head, Of::Port), Kind::Sign(b';'));
    let props = whole.props;
    put(
        rows,
        whole,
        [
            Sort::Port as usize,
            owner,
            named,
            way,
            props[TIMING],
            0,
            0,
            0,
            0,
            0,
        ],
    )
}

#[tactic(auto, unfolding(crate::specs::Features::other_feature))]
fn is_other_feature(kind: Kind) -> bool
    ensures { result ≡ other_feature kind }
{
    matches!(kind, Kind::Requires | Kind::Provides | Kind::Feature)
}

// port | other_feature
fn feature_of(
    text: &[u8],
    rows: &mut [usize],
    reading: Reading,
    owner: usize,
    named: usize,
) -> Reading
    ensures { state_of text.now result rows.new
        ≡ does (state_of text.now reading rows.old) (feature_of owner named) }
{
    let went = reading.went;
    let props = reading.props;
    if is_other_feature(next(text, went)) {
        return on(reading, word_and_rest(text, went));
    }
    let fresh = with_props(reading, NO_PROPERTIES);
    with_props(port(text, rows, fresh, owner, named), props)
}

// NAME ":" ( port | other_feature )
fn feature(text: &[u8], rows: &mut [usize], reading: Reading, owner: usize) -> Reading
    ensures { state_of text.now result rows.new
        ≡ does (state_of text.now reading rows.old) (feature owner) }
{
    let went = reading.went;
    let named = start_of(text, went);
    feature_of(text, rows, on(reading, label(text, went)), owner, named)
}

// { feature }
pub fn features(text: &[u8], rows: &mut [usize], reading: Reading, owner: usize) -> Reading
    ensures { state_of text.now result rows.new
        ≡ does (state_of text.now reading rows.old) (features owner) }
{
    let mut r = reading;
    while is_name(next_of(text, r)) {
        r = feature(text, rows, r, owner);
    }
    r
}
