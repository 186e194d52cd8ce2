// What a text that was read to its end is judged by: each row that was declared, for itself. The fault at the least place is kept.
#![tactic(auto)]

ghost use Rattle.std.specs.Prelude.{◌≡◌, ◌<◌, ◌&&◌, IfSome};
ghost use Rattle.common.specs.Words.{suc};
ghost use Rattle.steps.specs.Faults.{worst};
ghost use Rattle.index.specs.Options.{number_in, value_of};
ghost use Rattle.index.specs.Index.{cell};
ghost use Rattle.index.specs.Held.{rows_of};
ghost use Rattle.ways.specs.Ways.{above, implementation_of, port_of, ends_of};
ghost use Rattle.ways.specs.Named.{text_of, all_rows};
ghost use Rattle.verdict.specs.Verdict.{fault_if, none, again_faults, thread_faults, timing_by, out_faults, in_faults, twice_faults, link_faults};
ghost use Rattle.verdict.specs.Verdict.{row_faults, process_faults, judged};

mod joined;

use index::{CONNECTED, Dictionary, Rows};
pub use joined::Joined;
use keys::Key;
use rows::Sort;
use rows::sort::{OFFSET_COLUMN, PERIOD_COLUMN, PROTOCOL_COLUMN};
use steps::{Fault, Rule, Why, worse};
use ways::{Names, implementation_of, thread_named};

// What columns of the rows that are judged hold.
const ONLY_IN: usize = 1;

const ONLY_OUT: usize = 2;

const RIGHT: usize = 1;

const WRONG: usize = 2;

// One fault more, where something is wrong.
fn note(fault: Option<Fault>, wrong: bool, rule: Rule, place: usize, why: Why) -> Option<Fault>
    ensures { result ≡ worst fault (fault_if wrong rule place why) }
{
    if !wrong {
        return fault;
    }
    worse(fault, Some(Fault { rule, place, why }))
}

// What was declared before.
fn again(names: &Names<'_>, k: usize, fault: Option<Fault>) -> Option<Fault>
    requires { k < names.now.declared.rows.count }
    ensures { result ≡ worst fault (again_faults (text_of names.now) (all_rows names.now) k) }
{
    let name = names.declared.rows.cell(k, 2);
    if name == 0 {
        return fault;
    }
    note(
        fault,
        !names.declared.is_first(k),
        Rule::Unfit,
        name,
        Why::DeclaredBefore,
    )
}

// Whether neither the type of thread k nor the implementation that it names stands in the text.
fn is_stray(names: &Names<'_>, k: usize) -> bool
    requires { k < names.now.declared.rows.count }
    ensures { result ≡ (none (above (text_of names.now) (all_rows names.now) k)
        && none (implementation_of (text_of names.now) (all_rows names.now) k)) }
{
    names.above(k).is_none() && implementation_of(&names.declared, k).is_none()
}

// A thread of the process.
fn thread(names: &Names<'_>, k: usize, fault: Option<Fault>) -> Option<Fault>
    requires { k < names.now.declared.rows.count }
    ensures { result ≡ worst fault (thread_faults (text_of names.now) (all_rows names.now) k) }
{
    let rows = &names.declared.rows;
    let name = rows.cell(k, 2);
    let period = names.property_of(k, PERIOD_COLUMN);
    let protocol = names.property_of(k, PROTOCOL_COLUMN);
    let offset = names.property_of(k, OFFSET_COLUMN);
    let typed = note(
        fault,
        is_stray(names, k),
        Rule::Unknown,
        rows.cell(k, 3),
        Why::NoSuchType,
    );
    let timed = note(typed, period.is_none(), Rule::Unfit, name, Why::NoPeriod);
    let periodic = note(
        timed,
        protocol == Some(WRONG),
        Rule::Unfit,
        name,
        Why::NotPeriodic,
    );
    note(
        periodic,
        offset.is_some(),
        Rule::Unfit,
        name,
        Why::HasOffset,
    )
}

// The Timing of connection k: its own, or else its output port's.
fn timing(rows: &Rows<'_>, k: usize, port: usize) -> Option<usize>
    requires { (k < rows.now.count) × (port < rows.now.count) }
    ensures { result ≡ value_of (timing_by (rows_of rows.now) k (suc port)) }
{
    rows.value(k, 8).or(rows.value(port, 4))
}

// The output port of connection k.
fn output_port(
    rows: &Rows<'_>,
    k: usize,
    port: Option<usize>,
    fault: Option<Fault>,
) -> Option<Fault>
    requires { (k < rows.now.count) × IfSome port (λ j. j < rows.now.count) }
    ensures { result ≡ worst fault (out_faults (rows_of rows.now) k (number_in port)) }
{
    let place = rows.cell(k, 5);
    let Some(port) = port else {
        return note(fault, true, Rule::Unknown, place, Why::NoSuchPort);
    };
    let direction = rows.cell(port, 3);
    let directed = note(
        fault,
        direction == ONLY_IN,
        Rule::Unfit,
        place,
        Why::WrongDirection,
    );
    note(
        directed,
        timing(rows, k, port) != Some(RIGHT),
        Rule::Unfit,
        place,
        Why::NotDelayed,
    )
}

// The output port of connection k, whose sending thread's row is given.
fn output(names: &Names<'_>, k: usize, sender: usize, fault: Option<Fault>) -> Option<Fault>
    requires { (k < names.now.declared.rows.count) × (sender < names.now.declared.rows.count) }
    ensures { result ≡ worst fault (out_faults (all_rows names.now) k
        (port_of (text_of names.now) (all_rows names.now) sender (cell (all_rows names.now) k 5))) }
{
    let rows = &names.declared.rows;
    let port = names.port_of(sender, rows.cell(k, 5));
    output_port(rows, k, port, fault)
}

// The input port of connection k, and whether the way ends on which it was looked for.
fn input_port(
    rows: &Rows<'_>,
    k: usize,
    port: Option<usize>,
    ends: bool,
    fault: Option<Fault>,
) -> Option<Fault>
    requires { (k < rows.now.count) × IfSome port (λ j. j < rows.now.count) }
    ensures { result ≡ worst fault (in_faults (rows_of rows.now) k (number_in port) ends) }
{
    let place = rows.cell(k, 7);
    let Some(port) = port else {
        return note(fault, ends, Rule::Unknown, place, Why::NoSuchPort);
    };
    note(
        fault,
        rows.cell(port, 3) == ONLY_OUT,
        Rule::Unfit,
        place,
        Why::WrongDirection,
    )
}

// The input port of connection k, whose receiving thread's row is given.
fn input(names: &Names<'_>, k: usize, receiver: usize, fault: Option<Fault>) -> Option<Fault>
    requires { (k < names.now.declared.rows.count) × (receiver < names.now.declared.rows.count) }
    ensures { result ≡ worst fault (in_faults (all_rows names.now) k
        (port_of (text_of names.now) (all_rows names.now) receiver (cell (all_rows names.now) k 7))
        (ends_of (text_of names.now) (all_rows names.now) receiver)) }
{
    let rows = &names.declared.rows;
    let port = names.port_of(receiver, rows.cell(k, 7));
    input_port(rows, k, port, names.way_ends(receiver), fault)
}

// A connection whose sending thread and receiving port are an earlier one's.
fn twice(connections: &Dictionary<'_, CONNECTED>, k: usize, fault: Option<Fault>) -> Option<Fault>
    requires { k < connections.now.rows.count }
    ensures { result ≡ worst fault (twice_faults connections.now.text.now (rows_of connections.now.rows) k) }
{
    let place = connections.rows.cell(k, 3);
    note(
        fault,
        !connections.is_first(k),
        Rule::Twice,
        place,
        Why::ConnectedBefore,
    )
}

// Connection k between threads.
fn link(joined: &Joined<'_>, k: usize, fault: Option<Fault>) -> Option<Fault>
    requires { k < joined.now.names.declared.rows.count }
    ensures { result ≡ worst fault (link_faults (text_of joined.now.names) (all_rows joined.now.names) k) }
{
    let names = &joined.names;
    let rows = &names.declared.rows;
    let process = rows.cell(k, 1);
    let from = rows.cell(k, 4);
    let to = rows.cell(k, 6);
    let sender = thread_named(&names.declared, process, from);
    let receiver = thread_named(&names.declared, process, to);
    let sent = note(
        fault,
        sender.is_none(),
        Rule::Unknown,
        from,
        Why::NoSuchThread,
    );
    let known = note(
        sent,
        receiver.is_none(),
        Rule::Unknown,
        to,
        Why::NoSuchThread,
    );
    let Some(sender) = sender else {
        return known;
    };
    let Some(receiver) = receiver else {
        return known;
    };
    let connections = joined.connections();
    let once = twice(&connections, k, known);
    let out = output(names, k, sender, once);
    input(names, k, receiver, out)
}

// What row k declares.
fn row(joined: &Joined<'_>, k: usize, fault: Option<Fault>) -> Option<Fault>
    requires { k < joined.now.names.declared.rows.count }
    ensures { result ≡ worst fault (row_faults (text_of joined.now.names) (all_rows joined.now.names) k) }
{
    let once = again(&joined.names, k, fault);
    let sort = joined.names.declared.rows.cell(k, 0);
    if sort == Sort::Thread as usize {
        return thread(&joined.names, k, once);
    }
    if sort == Sort::Link as usize {
        return link(joined, k, once);
    }
    once
}

// No process implementation at all.
fn process(names: &Names<'_>, fault: Option<Fault>) -> Option<Fault>
    ensures { result ≡ worst fault (process_faults (text_of names.now) (all_rows names.now)) }
{
    let key = Key {
        sort: Sort::Process as usize,
        ..Key::NONE
    };
    let first = names.declared.find(key);
    note(
        fault,
        first.is_none(),
        Rule::Unfit,
        names.declared.text.len(),
        Why::NoProcess,
    )
}

// All rows: the least of the given fault and theirs.
pub fn judge(joined: &Joined<'_>, fault: Option<Fault>) -> Option<Fault>
    ensures { result ≡ worst fault (judged (text_of joined.now.names) (all_rows joined.now.names)) }
{
    let mut least = process(&joined.names, fault);
    for k in 0..joined.names.declared.rows.count {
        least = row(joined, k, least);
    }
    least
}
