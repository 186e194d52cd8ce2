// The way back from a number: its deadline, looked for up to the last tick, its sender and the sender's job. Callers have tested the
// plan (`Usable`) and that the number's deadline is within the last tick.
ghost use Rattle.std.specs.Prelude.{◌≡◌, ◌-◌, ◌/◌, ◌<◌, ◌≤◌};
ghost use Rattle.common.specs.Words.{get_or};
ghost use Rattle.model.specs.Model.{up_to};
ghost use Rattle.calendar.specs.Calendar.{job};
ghost use Rattle.plan.specs.Limits.{task_limit, last_tick};
ghost use Rattle.plan.specs.Plan.{queue_at, Usable};
ghost use Rattle.numbering.specs.Origin.{origin_of};

use calendar::{Job, Number, Tick};
use plan::Plan;

// A message's sender, as its row, and its job.
#[derive(Clone, Copy)]
pub struct Origin {
    pub task: usize,
    pub job: Job,
}

// The job of a task that has its deadline at this tick.
fn job_due(plan: &Plan, at: Tick, task: usize) -> Job
    requires { (task < task_limit) × (1 ≤ get_or plan.now.period task 0) × (get_or plan.now.deadline task 0 ≤ at.0) }
    ensures { result ≡ job ((at.0 - get_or plan.now.deadline task 0) / get_or plan.now.period task 0) }
{
    let release = Tick(at.0 - plan.deadline[task]);
    calendar::job_at(plan.period[task], release)
}

// The sender and the job of message n.
pub fn origin_of(plan: &Plan, queue: usize, n: Number) -> Origin
    requires { Usable plan.now queue × (1 ≤ n.0) × (n.0 ≤ up_to (queue_at plan.now queue) last_tick) }
    ensures { result ≡ origin_of (queue_at plan.now queue) n.0 }
{
    let at = counting::sender::tick_between(plan, queue, n, Tick(0), Tick(Plan::LAST_TICK));
    let task = counting::sender::sender_at(plan, queue, n, at);
    Origin {
        task,
        job: job_due(plan, at, task),
    }
}
