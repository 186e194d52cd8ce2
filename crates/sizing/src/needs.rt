// The slots that a message asks for: those of the messages up to it that are not outdated when it is sent, itself among them.
ghost use Rattle.std.specs.Prelude.{◌≡◌, ◌+◌, ◌-◌, ◌^◌, ◌<◌, ◌≤◌};
ghost use Rattle.model.specs.Model.{count, up_to};
ghost use Rattle.plan.specs.Limits.{last_tick};
ghost use Rattle.plan.specs.Plan.{queue_at};
ghost use Rattle.counting.specs.Lent.{Lent, number_due};

use calendar::Tick;
use plan::Plan;

// How many of a task's jobs have their deadline after one tick and not after another.
fn between(period: u64, deadline: u64, from: Tick, to: Tick) -> u64
    requires { (1 ≤ period) × (deadline ≤ period) × (from.0 ≤ to.0) × (to.0 + period < 2 ^ 64) }
    ensures { result ≡ count period deadline to.0 - count period deadline from.0 }
{
    calendar::count(period, deadline, to) - calendar::count(period, deadline, from)
}

// What the task's message with its deadline at a tick asks for, where the messages with deadlines up to the horizon are outdated. One pass
// over the rows counts for both.
pub fn need_of(plan: &Plan, queue: usize, task: usize, due: Tick, horizon: Tick) -> u64
    requires { Lent plan.now queue × (horizon.0 < due.0) × (due.0 ≤ last_tick) × (task < plan.now.tasks) }
    ensures { result ≡ number_due (queue_at plan.now queue) due.0 task - up_to (queue_at plan.now queue) horizon.0 }
{
    let base = queue * Plan::TASKS;
    let before = Tick(due.0 - 1);
    let own = plan.priority[task];
    let mut sum: u64 = 0;
    for i in 0..plan.tasks {
        if plan.sends[base + i] {
            let until = counting::number::last_counted(own, plan.priority[i], task, i, before);
            sum += between(plan.period[i], plan.deadline[i], horizon, until);
        }
    }
    sum
}
