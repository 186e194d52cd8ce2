// The table of a text without a fault: a row for each thread in text order, and a queue for each receiving port in the order of the first
// connection to it.
#![tactic(auto)]

ghost use Rattle.std.specs.Prelude.{◌≡◌, ◌<◌};
ghost use Rattle.rows.specs.Rows.{row_words};
ghost use Rattle.index.specs.Options.{number_in};
ghost use Rattle.ways.specs.Named.{text_of, all_rows};
ghost use Rattle.kit.specs.Kit.{said_by, instead_of, figure_of, position, table_of};
ghost use Rattle.kit.specs.Priorities.{InBytes};

mod place;
mod prepared;
mod sources;

use chosen::{queues, threads};
use findings::Table;
use place::first_place;
use plan::Plan;
pub use prepared::Prepared;
use rows::sort::{DEADLINE_COLUMN, PERIOD_COLUMN, PRIORITY_COLUMN};
use sources::Sources;
use std::array;
use ways::Names;

// The number that a value says, a time in ticks or a priority; 0 where there is none.
fn said_by(value: usize) -> u64
    ensures { result ≡ said_by value }
{
    value.saturating_sub(2) as u64
}

// The column that counts where one has nothing: the Period in the place of the Deadline.
fn instead_of(c: usize) -> usize
    requires { c < row_words }
    ensures { (result ≡ instead_of c) × (result < row_words) }
{
    if c == DEADLINE_COLUMN {
        PERIOD_COLUMN
    } else {
        c
    }
}

// A figure of thread k by its column.
fn figure(names: &Names<'_>, k: usize, c: usize) -> u64
    requires { (k < names.now.declared.rows.count) × (c < row_words) }
    ensures { result ≡ figure_of (text_of names.now) (all_rows names.now) c k }
{
    match names.property_of(k, c) {
        Some(own) => said_by(own),
        None => {
            let instead = names.property_of(k, instead_of(c));
            said_by(instead.unwrap_or(0))
        }
    }
}

// The same figures, each in a byte.
fn in_bytes(figures: &[u64; Plan::TASKS]) -> [u8; Plan::TASKS]
    requires { InBytes figures.now }
    ensures { result ≡ figures.now }
{
    array::from_fn(|i| figures[i] as u8)
}

// Where a row stands among the first that were chosen; behind them where it does not.
fn place_of(row: Option<usize>, rows: &[usize; Plan::TASKS]) -> usize
    ensures { result ≡ position (number_in row) rows.now }
{
    let Some(row) = row else {
        return Plan::TASKS;
    };
    first_place(row, rows).unwrap_or(Plan::TASKS)
}

// The table of the rows of a text.
pub fn make_table(prepared: &Prepared<'_>) -> Table
    ensures { result ≡ table_of (text_of prepared.now.joined.names) (all_rows prepared.now.joined.names) }
{
    let joined = prepared.joined;
    let sources = Sources {
        joined,
        threads: threads(&joined.names.declared.rows),
        queues: queues(&prepared.queues()),
    };
    Table {
        tasks: sources.threads.count,
        queues: sources.queues.count,
        period: sources.figures(PERIOD_COLUMN),
        deadline: sources.figures(DEADLINE_COLUMN),
        priority: in_bytes(&sources.figures(PRIORITY_COLUMN)),
        receiver: sources.receivers(),
        sends: sources.senders(),
    }
}
