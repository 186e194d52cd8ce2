// The square of yes and no as an array of arrays: row q says which tasks send into queue q. A plan keeps it flat, and the connection
// tests of rule 3 take it by rows.
ghost use Rattle.std.specs.Prelude.{◌≡◌, ◌<◌};
ghost use Rattle.plan.specs.Limits.{queue_limit};
ghost use Rattle.plan.specs.Square.{row_of, square_of};

use plan::Plan;
use std::array;

fn row_of(sends: &[bool; Plan::CELLS], q: usize) -> [bool; Plan::TASKS]
    requires { q < queue_limit }
    ensures { result ≡ row_of sends.now q }
{
    array::from_fn(|i| sends[q * Plan::TASKS + i])
}

pub fn square_of(sends: &[bool; Plan::CELLS]) -> [[bool; Plan::TASKS]; Plan::QUEUES]
    ensures { result ≡ square_of sends.now }
{
    array::from_fn(
        |q|
            requires { q < queue_limit }
            ensures { result ≡ row_of sends.entry.now q }
        { row_of(sends, q) },
    )
}
