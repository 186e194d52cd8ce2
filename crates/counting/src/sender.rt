// The way back from a number: halving finds the deadline, the least tick with so many messages up to it, and the row that is due there
// and has the number is the sender.
ghost use Rattle.std.specs.Prelude.{◌≡◌, ◌<◌, ◌≤◌};
ghost use Rattle.common.specs.Words.{not};
ghost use Rattle.common.specs.Terms.{first_bad};
ghost use Rattle.model.specs.Model.{up_to, due_at, tick_of, sent_by};
ghost use Rattle.calendar.specs.Calendar.{tick};
ghost use Rattle.plan.specs.Limits.{last_tick};
ghost use Rattle.plan.specs.Plan.{queue_at};
ghost use Rattle.counting.specs.Lent.{Lent};

use crate::count::up_to;
use crate::number::number_due;
use calendar::{Number, Tick};
use plan::Plan;

// The deadline of message n, which lies after `low` and not after `high`.
pub fn tick_between(plan: &Plan, queue: usize, n: Number, low: Tick, high: Tick) -> Tick
    requires { Lent plan.now queue × (high.0 ≤ last_tick)
        × (up_to (queue_at plan.now queue) low.0 < n.0)
        × (n.0 ≤ up_to (queue_at plan.now queue) high.0) }
    ensures { result ≡ tick (tick_of (queue_at plan.now queue) last_tick n.0) }
{
    let mut early = low.0;
    let mut late = high.0;
    while 1 < late - early {
        let middle = early + (late - early) / 2;
        if up_to(plan, queue, Tick(middle)) < n.0 {
            early = middle;
        } else {
            late = middle;
        }
    }
    Tick(late)
}

// Whether a row sends and has a deadline at a tick.
fn due_at(plan: &Plan, queue: usize, at: Tick, row: usize) -> bool
    requires { Lent plan.now queue × (row < plan.now.tasks) }
    ensures { result ≡ due_at (queue_at plan.now queue) at.0 row }
{
    plan.sends[queue * Plan::TASKS + row]
        && calendar::has_deadline(plan.period[row], plan.deadline[row], at)
}

// Whether a row's message with its deadline at this tick has the number n.
fn sent_by(plan: &Plan, queue: usize, n: Number, at: Tick, row: usize) -> bool
    requires { Lent plan.now queue × (row < plan.now.tasks) × (at.0 ≤ last_tick) }
    ensures { result ≡ sent_by (queue_at plan.now queue) at.0 n.0 row }
{
    due_at(plan, queue, at, row) && number_due(plan, queue, at, row) == n
}

// The row whose message with its deadline at this tick has the number n; the count of tasks where there is none.
pub fn sender_at(plan: &Plan, queue: usize, n: Number, at: Tick) -> usize
    requires { Lent plan.now queue × (at.0 ≤ last_tick) }
    ensures { result ≡ first_bad (λ i. not (sent_by (queue_at plan.now queue) at.0 n.0 i)) plan.now.tasks }
{
    (0..plan.tasks)
        .find(|&row| sent_by(plan, queue, n, at, row))
        .unwrap_or(plan.tasks)
}
