// The square of yes and no from the sender masks.
ghost use Rattle.std.specs.Prelude.{◌≡◌, ◌<◌};
ghost use Rattle.common.specs.Words.{get_or};
ghost use Rattle.plan.specs.Limits.{task_limit, queue_limit};
ghost use Rattle.desk.specs.Desk.{bit_of, row_of, square_of};

use plan::Plan;
use std::array;

fn row_of(mask: u64) -> [bool; Plan::TASKS]
    ensures { result ≡ row_of mask }
{
    array::from_fn(
        |i|
            requires { i < task_limit }
            ensures { result ≡ bit_of mask i }
        { (mask >> i) % 2 == 1 },
    )
}

pub fn square_of(masks: &[u64; Plan::QUEUES]) -> [[bool; Plan::TASKS]; Plan::QUEUES]
    ensures { result ≡ square_of masks.now }
{
    array::from_fn(
        |q|
            requires { q < queue_limit }
            ensures { result ≡ row_of (get_or masks.entry.now q 0) }
        { row_of(masks[q]) },
    )
}
