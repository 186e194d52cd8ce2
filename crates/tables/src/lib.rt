// The table that planning is handed, as a plan that has no sizes yet, with zeros beyond the counts.
#![tactic(auto)]

ghost use Rattle.std.specs.Prelude.{◌≡◌};
ghost use Rattle.common.specs.Terms.{table};
ghost use Rattle.tables.specs.Table.{value_within, flat, tabled};

use plan::Plan;
use std::array;

// A column of the tasks or of the queues: a counted row keeps its value, and a row beyond the count is zero.
fn column<T: Copy, const N: usize>(count: usize, values: &[T; N], zero: T) -> [T; N]
    ensures { result ≡ table (value_within count values.now zero) N }
{
    let mut out = *values;
    let rows = &mut out[..];
    for row in &mut rows[count.min(N)..] {
        *row = zero;
    }
    out
}

fn flat_square(queues: usize, square: &[[bool; Plan::TASKS]; Plan::QUEUES]) -> [bool; Plan::CELLS]
    ensures { result ≡ flat queues square.now }
{
    array::from_fn(|c| c / Plan::TASKS < queues && square[c / Plan::TASKS][c % Plan::TASKS])
}

pub fn tabled(
    tasks: usize,
    queues: usize,
    period: [u64; Plan::TASKS],
    deadline: [u64; Plan::TASKS],
    priority: [u8; Plan::TASKS],
    receiver: [usize; Plan::QUEUES],
    square: [[bool; Plan::TASKS]; Plan::QUEUES],
) -> Plan
    ensures { result ≡ tabled tasks queues period deadline priority receiver square }
{
    Plan {
        tasks,
        queues,
        period: column(tasks, &period, 0),
        deadline: column(tasks, &deadline, 0),
        priority: column(tasks, &priority, 0),
        receiver: column(queues, &receiver, 0),
        sends: flat_square(queues, &square),
        size: [0; Plan::QUEUES],
        place: [0; Plan::QUEUES],
    }
}
