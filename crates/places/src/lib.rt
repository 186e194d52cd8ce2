// The sizes and places of all queues of a table that has passed rules 1 to 3: one queue after another, over what `sizing` reckons of each.
#![tactic(auto)]

ghost use Rattle.std.specs.Prelude.{◌≡◌, ◌<◌, ◌≤◌};
ghost use Rattle.common.specs.Words.{ℕ, ltb, get_or};
ghost use Rattle.common.specs.Totals.{only, sum};
ghost use Rattle.plan.specs.Limits.{queue_limit};
ghost use Rattle.plan.specs.Rules.{row_below};
ghost use Rattle.plan.specs.Sound.{Checked};
ghost use Rattle.sizing.specs.Bounds.{largest_size};
ghost use Rattle.places.specs.Places.{long_queue, least_size, least_sizes, running_places};

use plan::Plan;
use std::array;

// Rules 4 and 5: the first queue that breaks one of them.
pub fn first_long(table: &Plan) -> Option<usize>
    requires { Checked table.now }
    ensures { result ≡ row_below table.now.queues (long_queue table.now) }
{
    (0..table.queues).find(|&q| !sizing::cycle::cycle_good(table, q))
}

// One queue's least size, 0 for a queue beyond the count.
fn size_of(table: &Plan, queue: usize) -> u64
    requires { Checked table.now × (long_queue table.now ≡ table.now.queues) }
    ensures { result ≡ only (ltb queue table.now.queues) (least_size table.now queue) }
{
    if table.queues <= queue {
        return 0;
    }
    let Some(ticks) = sizing::cycle::hyperperiod_of(table, queue) else {
        return 0;
    };
    sizing::sizes::slots_over(table, queue, ticks)
}

pub fn sizes_of(table: &Plan) -> [usize; Plan::QUEUES]
    requires { Checked table.now × (long_queue table.now ≡ table.now.queues) }
    ensures { result ≡ least_sizes table.now }
{
    array::from_fn(|q| size_of(table, q) as usize)
}

// The place of each queue: the sizes before it summed up.
pub fn places_of(queues: usize, sizes: [usize; Plan::QUEUES]) -> [usize; Plan::QUEUES]
    requires { (q : ℕ) → q < queue_limit → get_or sizes q 0 ≤ largest_size }
    ensures { result ≡ running_places queues sizes }
{
    array::from_fn(|q| if q < queues { total_of(q, sizes) } else { 0 })
}

// The slots of all queues together.
pub fn total_of(queues: usize, sizes: [usize; Plan::QUEUES]) -> usize
    requires { (queues ≤ queue_limit) × ((q : ℕ) → q < queue_limit → get_or sizes q 0 ≤ largest_size) }
    ensures { result ≡ sum (λ q. get_or sizes q 0) queues }
{
    sizes[..queues].iter().sum()
}
