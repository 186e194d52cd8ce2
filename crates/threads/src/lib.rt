// Subcomponents of a process implementation: its threads are declared, others are skipped.
#![tactic(auto)]

ghost use Rattle.std.specs.Prelude.{◌≡◌};
ghost use Rattle.rows.specs.States.{state_of, does};
ghost use Rattle.threads.specs.Threads.{thread_of, thread, other_component, subcomponent_of, subcomponent, subcomponents};

use phrases::{dotted, label, scopes, word_and_rest};
use properties::{Of, maybe_block_in};
use rows::{NO_PROPERTIES, Reading, Sort, next_of, on, put, symbol_on, with_props};
use steps::{is_name, name, next, start_of, symbol};
use words::kinds::Kind;

// classifier [ block ] ";" of the thread whose name stands at `named`, in the process that begins at `process`
fn thread_of(
    text: &[u8],
    rows: &mut [usize],
    reading: Reading,
    process: usize,
    named: usize,
) -> Reading
    ensures { state_of text.now result rows.new
        ≡ does (state_of text.now reading rows.old) (thread_of process named) }
{
    let went = reading.went;
    let scoped = scopes(text, went);
    let typed = name(text, scoped);
    let made = symbol(text, typed, Kind::Sign(b'.'));
    let head = on(reading, dotted(text, typed));
    let whole = symbol_on(
        text,
        maybe_block_in(text, head, Of::Thread),
        Kind::Sign(b';'),
    );
    let p = whole.props;
    put(
        rows,
        whole,
        [
            Sort::Thread as usize,
            process,
            named,
            start_of(text, scoped),
            start_of(text, made),
            p[0],
            p[1],
            p[2],
            p[3],
            p[4],
        ],
    )
}

// "thread" classifier [ block ] ";"
fn thread(
    text: &[u8],
    rows: &mut [usize],
    reading: Reading,
    process: usize,
    named: usize,
) -> Reading
    ensures { state_of text.now result rows.new
        ≡ does (state_of text.now reading rows.old) (thread process named) }
{
    thread_of(
        text,
        rows,
        symbol_on(text, reading, Kind::Thread),
        process,
        named,
    )
}

#[tactic(auto, unfolding(crate::specs::Threads::other_component))]
fn is_other_component(kind: Kind) -> bool
    ensures { result ≡ other_component kind }
{
    matches!(kind, Kind::Data | Kind::Subprogram | Kind::Abstract)
}

fn subcomponent_of(
    text: &[u8],
    rows: &mut [usize],
    reading: Reading,
    process: usize,
    named: usize,
) -> Reading
    ensures { state_of text.now result rows.new
        ≡ does (state_of text.now reading rows.old) (subcomponent_of process named) }
{
    let went = reading.went;
    let props = reading.props;
    if is_other_component(next(text, went)) {
        return on(reading, word_and_rest(text, went));
    }
    let fresh = with_props(reading, NO_PROPERTIES);
    with_props(thread(text, rows, fresh, process, named), props)
}

// NAME ":" ( "thread" .. | ( "data" | "subprogram" | "abstract" ) rest )
fn subcomponent(text: &[u8], rows: &mut [usize], reading: Reading, process: usize) -> Reading
    ensures { state_of text.now result rows.new
        ≡ does (state_of text.now reading rows.old) (subcomponent process) }
{
    let went = reading.went;
    let named = start_of(text, went);
    subcomponent_of(text, rows, on(reading, label(text, went)), process, named)
}

// { subcomponent }
pub fn subcomponents(text: &[u8], rows: &mut [usize], reading: Reading, process: usize) -> Reading
    ensures { state_of text.now result rows.new
        ≡ does (state_of text.now reading rows.old) (subcomponents process) }
{
    let mut r = reading;
    while is_name(next_of(text, r)) {
        r = subcomponent(text, rows, r, process);
    }
    r
}
