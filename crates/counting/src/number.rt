// Equation 2: the number of a task's message with its deadline at a tick. It is the sum over the rows of the messages with deadlines up to
// the tick, but only up to the tick before for a row that goes after the task among equal deadlines: so no row's remainder is needed.
ghost use Rattle.std.specs.Prelude.{◌≡◌, ◌+◌, ◌<◌, ◌≤◌};
ghost use Rattle.common.specs.Words.{cond};
ghost use Rattle.model.specs.Model.{Queue, precedes};
ghost use Rattle.calendar.specs.Calendar.{message};
ghost use Rattle.plan.specs.Limits.{last_tick};
ghost use Rattle.plan.specs.Plan.{queue_at};
ghost use Rattle.counting.specs.Lent.{Lent, number_due};

use calendar::{Number, Tick};
use plan::Plan;

// Of two messages with equal deadlines, whether the task's goes before the row's: the higher priority first, and equal ones by row. The
// lower row counts as if its priority were higher by one: so there is one comparison, and no branch that would be guessed wrong.
fn precedes(own: u8, other: u8, task: usize, row: usize) -> bool
    ensures { (q : Queue) → q.priority task ≡ own → q.priority row ≡ other → result ≡ precedes q task row }
{
    u64::from(other) < u64::from(own) + u64::from(task < row)
}

// Up to which tick a row's messages count for the number of the task's, which is due in the tick after `before`.
pub fn last_counted(own: u8, other: u8, task: usize, row: usize, before: Tick) -> Tick
    requires { before.0 < last_tick }
    ensures { (q : Queue) → q.priority task ≡ own → q.priority row ≡ other →
        result.0 ≡ cond (precedes q task row) before.0 (before.0 + 1) }
{
    Tick(before.0 + u64::from(!precedes(own, other, task, row)))
}

pub fn number_due(plan: &Plan, queue: usize, due: Tick, task: usize) -> Number
    requires { Lent plan.now queue × (1 ≤ due.0) × (due.0 ≤ last_tick) × (task < plan.now.tasks) }
    ensures { result ≡ message (number_due (queue_at plan.now queue) due.0 task) }
{
    let base = queue * Plan::TASKS;
    let before = Tick(due.0 - 1);
    let own = plan.priority[task];
    let mut sum: u64 = 0;
    for i in 0..plan.tasks {
        if plan.sends[base + i] {
            let until = last_counted(own, plan.priority[i], task, i, before);
            sum += calendar::count(plan.period[i], plan.deadline[i], until);
        }
    }
    Number(sum)
}
