// Connections of a process implementation: port connections between threads are declared, others are passed over.
#![tactic(auto)]

ghost use Rattle.std.specs.Prelude.{◌≡◌, ◌&&◌};
ghost use Rattle.steps.specs.Lifted.{lift};
ghost use Rattle.rows.specs.States.{state_of, does};
ghost use Rattle.links.specs.Links.{EndsAt, timing_by, link, other_kind, connection_of, label_in, connection, connection_kind, connections};

use phrases::{arrow, dotted, link_kind, maybe_label, word_and_rest};
use properties::{Of, TIMING, maybe_block_in};
use rows::{NO_PROPERTIES, Reading, Sort, next_of, on, put, symbol_on, with_props};
use steps::{Went, is_name, name, next, second, start_of, symbol};
use words::kinds::Kind;

// The two ends of a port connection: where the text goes on, where the names of its threads and ports stand, whether both have a port,
// and whether its arrow says Delayed.
#[derive(Drop)]
pub struct Ends {
    pub went: Went,
    pub sender: usize,
    pub out: usize,
    pub receiver: usize,
    pub into: usize,
    pub pointed: bool,
    pub delayed: bool,
}

// port_kind place ( "->" | "->>" ) place
fn ends_of(text: &[u8], went: Went) -> Ends
    ensures { EndsAt text.now (lift text.now went) result }
{
    let sending = link_kind(text, went);
    let sender = name(text, sending);
    let pointing = dotted(text, sender);
    let receiving = arrow(text, pointing);
    let receiver = name(text, receiving);
    Ends {
        went: dotted(text, receiver),
        sender: start_of(text, sending),
        out: start_of(text, symbol(text, sender, Kind::Sign(b'.'))),
        receiver: start_of(text, receiving),
        into: start_of(text, symbol(text, receiver, Kind::Sign(b'.'))),
        pointed: next(text, sender) == Kind::Sign(b'.') && next(text, receiver) == Kind::Sign(b'.'),
        delayed: next(text, pointing) == Kind::Delaying,
    }
}

// From its block; else 1, Delayed, where its arrow says so; 0 where neither says.
#[tactic(auto, unfolding(crate::specs::Links::timing_by))]
fn timing_of(in_block: usize, delayed: bool) -> usize
    ensures { result ≡ timing_by in_block delayed }
{
    if in_block == 0 {
        usize::from(delayed)
    } else {
        in_block
    }
}

// A port connection that begins at `start`; its name stands at `named`, 0 where it has none.
fn link(
    text: &[u8],
    rows: &mut [usize],
    reading: Reading,
    process: usize,
    start: usize,
    named: usize,
) -> Reading
    ensures { state_of text.now result rows.new
        ≡ does (state_of text.now reading rows.old) (link process start named) }
{
    let went = reading.went;
    let ends = ends_of(text, went);
    let behind = ends.went;
    let between = ends.pointed;
    let head = on(reading, behind);
    let whole = symbol_on(text, maybe_block_in(text, head, Of::Port), Kind::Sign(b';'));
    if !between {
        return whole;
    }
    let props = whole.props;
    put(
        rows,
        whole,
        [
            Sort::Link as usize,
            process,
            named,
            start,
            ends.sender,
            ends.out,
            ends.receiver,
            ends.into,
            timing_of(props[TIMING], ends.delayed),
            0,
        ],
    )
}

// Whether other connections begin with these two words.
#[tactic(auto, unfolding(crate::specs::Links::other_kind))]
fn is_other_kind(kind: Kind, second: Kind) -> bool
    ensures { result ≡ other_kind kind second }
{
    match kind {
        Kind::Data => second == Kind::Access,
        Kind::Bus | Kind::Virtual | Kind::Subprogram | Kind::Feature | Kind::Parameter => true,
        _ => false,
    }
}

fn connection_of(
    text: &[u8],
    rows: &mut [usize],
    reading: Reading,
    process: usize,
    start: usize,
    named: usize,
) -> Reading
    ensures { state_of text.now result rows.new
        ≡ does (state_of text.now reading rows.old) (connection_of process start named) }
{
    let went = reading.went;
    let props = reading.props;
    if is_other_kind(next(text, went), second(text, went)) {
        return on(reading, word_and_rest(text, went));
    }
    let fresh = with_props(reading, NO_PROPERTIES);
    with_props(link(text, rows, fresh, process, start, named), props)
}

// Where a connection's name stands, 0 where it has none.
fn label_at(text: &[u8], went: Went) -> usize
    ensures { result ≡ label_in (lift text.now went) }
{
    if is_name(next(text, went)) {
        return start_of(text, went);
    }
    0
}

// [ NAME ":" ] ( port_kind .. | other_kind rest )
fn connection(text: &[u8], rows: &mut [usize], reading: Reading, process: usize) -> Reading
    ensures { state_of text.now result rows.new
        ≡ does (state_of text.now reading rows.old) (connection process) }
{
    let went = reading.went;
    let start = start_of(text, went);
    let named = label_at(text, went);
    connection_of(
        text,
        rows,
        on(reading, maybe_label(text, went)),
        process,
        start,
        named,
    )
}

// Whether a connection may begin with a token of this kind.
#[tactic(auto, unfolding(crate::specs::Links::connection_kind))]
fn begins_connection(kind: Kind) -> bool
    ensures { result ≡ connection_kind kind }
{
    matches!(
        kind,
        Kind::Port
            | Kind::Event
            | Kind::Data
            | Kind::Bus
            | Kind::Virtual
            | Kind::Subprogram
            | Kind::Feature
            | Kind::Parameter
    ) || is_name(kind)
}

// { connection }
pub fn connections(text: &[u8], rows: &mut [usize], reading: Reading, process: usize) -> Reading
    ensures { state_of text.now result rows.new
        ≡ does (state_of text.now reading rows.old) (connections process) }
{
    let mut r = reading;
    while begins_connection(next_of(text, r)) {
        r = connection(text, rows, r, process);
    }
    r
}
