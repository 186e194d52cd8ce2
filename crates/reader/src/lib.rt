// From an AADL text to its table. A text of any bytes is answered, with any memory that is lent.
#![tactic(auto)]

ghost use Rattle.std.specs.Prelude.{◌≡◌, ◌≤◌};
ghost use Rattle.common.specs.Words.{true, length, take};
ghost use Rattle.steps.specs.Faults.{worst};
ghost use Rattle.steps.specs.Lifted.{lift};
ghost use Rattle.ways.specs.Named.{text_of, all_rows};
ghost use Rattle.verdict.specs.Verdict.{judged};
ghost use Rattle.reader.specs.Reader.{most_bytes, end_faults, long_faults, plain_text, answer_read, answer_plain, enough, Fitting};
ghost use Rattle.reader.specs.Unique.{ReadGives};

use findings::{Problem, Read, no_table};
use index::{CONNECTED, DECLARED, Dictionary, QUEUED, Rows, build};
use kit::{Prepared, make_table};
use plain::make_plain;
use rows::Reading;
use steps::{Fault, Rule, Went, Why, worse};
use texts::read;
use verdict::{Joined, judge};
use ways::{Names, set_types};

// How much of a text is read, and how much memory is enough for any text.
pub const MOST_BYTES: usize = 262_144;

pub const MOST_ROWS: usize = 29_127;

pub const ROWS_ROOM: usize = 291_270;

pub const TREE_ROOM: usize = 58_256;

// The least fault so far, with that of a text which is too long.
#[tactic(auto, unfolding(steps::specs::Faults::worst))]
fn with_length(fault: Option<Fault>, long: bool) -> Option<Fault>
    ensures { result ≡ worst fault (long_faults long) }
{
    if !long {
        return fault;
    }
    let limit = Fault {
        rule: Rule::Unfit,
        place: MOST_BYTES,
        why: Why::TooLong,
    };
    worse(fault, Some(limit))
}

// The least of the faults that were found and those that the judgement finds in a text that was read to its end.
fn least_fault(joined: &Joined<'_>, went: Went, fault: Option<Fault>, long: bool) -> Option<Fault>
    ensures { result ≡ worst fault (end_faults (lift (text_of joined.now.names) went) long
        (judged (text_of joined.now.names) (all_rows joined.now.names))) }
{
    match went {
        Err(stopped) => worse(fault, Some(stopped)),
        Ok(_) if long => fault,
        Ok(_) => judge(joined, fault),
    }
}

// The answer to a plain text whose rows were read, with their dictionaries.
fn answer_prepared(prepared: &Prepared<'_>, reading: &Reading, long: bool) -> Read
    requires { prepared.now.joined.names.declared.rows.count ≡ reading.now.count }
    ensures { result ≡ answer_read (text_of prepared.now.joined.names) prepared.now.joined.names.declared.rows.memory.now reading.now long }
{
    let noted = with_length(reading.fault, long);
    match least_fault(&prepared.joined, reading.went, noted, long) {
        Some(fault) => Read {
            answer: Err(Problem::Refused(fault)),
            table: no_table(),
        },
        None => Read {
            answer: Ok(()),
            table: make_table(prepared),
        },
    }
}

// The answer to a plain text whose rows were read.
fn answer_read<'a>(
    text: &'a [u8],
    memory: &'a [usize],
    declared: &'a mut [u32],
    connected: &'a mut [u32],
    queued: &'a mut [u32],
    types: &'a mut [u32],
    reading: &Reading,
    long: bool,
) -> Read
    requires { Fitting reading.now.count memory.now declared.old connected.old queued.old types.old }
    ensures { result ≡ answer_read text.now memory.now reading.now long }
{
    let rows = Rows {
        memory,
        count: reading.count,
    };
    build::<DECLARED>(text, &rows, declared);
    build::<CONNECTED>(text, &rows, connected);
    build::<QUEUED>(text, &rows, queued);
    let declared = Dictionary {
        text,
        rows,
        tree: declared,
    };
    set_types(&declared, types);
    let names = Names { declared, types };
    let joined = Joined { names, connected };
    answer_prepared(&Prepared { joined, queued }, reading, long)
}

// The plain text of what is read of a text, and how many bytes it has.
fn plain_bytes(text: &[u8], plain: &mut [u8]) -> usize
    requires { most_bytes ≤ length plain.old }
    ensures { (result ≤ most_bytes) × (result ≤ length plain.new)
        × (take result plain.new ≡ plain_text text.now) }
{
    let n = MOST_BYTES.min(text.len());
    make_plain(&text[..n], &mut plain[..n]);
    n
}

// The answer to a plain text.
fn read_plain(
    text: &[u8],
    rows: &mut [usize],
    declared: &mut [u32],
    connected: &mut [u32],
    queued: &mut [u32],
    types: &mut [u32],
    long: bool,
) -> Read
    requires { (length text.now ≤ most_bytes)
        × (enough most_bytes (length rows.old) (length declared.old) (length connected.old)
        (length queued.old) (length types.old) ≡ true) }
    ensures { result ≡ answer_plain text.now long }
{
    let reading = read(text, rows);
    answer_read(
        text, rows, declared, connected, queued, types, &reading, long,
    )
}

// Whether so much lent memory is enough for any text.
#[tactic(auto, unfolding(crate::specs::Reader::enough))]
fn is_enough(
    plain: usize,
    rows: usize,
    declared: usize,
    connected: usize,
    queued: usize,
    types: usize,
) -> bool
    ensures { result ≡ enough plain rows declared connected queued types }
{
    plain >= MOST_BYTES
        && rows >= ROWS_ROOM
        && declared >= TREE_ROOM
        && connected >= TREE_ROOM
        && queued >= TREE_ROOM
        && types >= MOST_ROWS
}

// The table of a text. What the lent memory holds afterwards means nothing. It is lent piece by piece: no proof is generated for a
// parameter that holds a `&mut` and is taken apart.
pub fn read_table(
    text: &[u8],
    plain: &mut [u8],
    rows: &mut [usize],
    declared: &mut [u32],
    connected: &mut [u32],
    queued: &mut [u32],
    types: &mut [u32],
) -> Read
    ensures { ReadGives (enough (length plain.old) (length rows.old) (length declared.old)
        (length connected.old) (length queued.old) (length types.old)) text.now result }
{
    let room = is_enough(
        plain.len(),
        rows.len(),
        declared.len(),
        connected.len(),
        queued.len(),
        types.len(),
    );
    if !room {
        return Read {
            answer: Err(Problem::NoRoom),
            table: no_table(),
        };
    }
    let long = text.len() > MOST_BYTES;
    let n = plain_bytes(text, plain);
    read_plain(&plain[..n], rows, declared, connected, queued, types, long)
}
