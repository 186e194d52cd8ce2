// What a lookup can reach: a job whose tick is not past the last one (rule 11).
ghost use Rattle.std.specs.Prelude.{◌≡◌, ◌<◌, ◌≤◌};
ghost use Rattle.common.specs.Words.{ltb};
ghost use Rattle.model.specs.Model.{due, released, receiver_period, deadline_of};
ghost use Rattle.plan.specs.Limits.{longest_period, last_tick};
ghost use Rattle.plan.specs.Plan.{queue_at, Usable};

use calendar::Job;
use plan::Plan;

// Whether the tick that lies `span` ticks behind a job's release is past the last tick. Jobs past it are told apart first, since a
// period is at least 1: what is reckoned then fits.
fn past_last(period: u64, span: u64, job: Job) -> bool
    requires { (1 ≤ period) × (period ≤ longest_period) × (span ≤ longest_period) }
    ensures { result ≡ ltb last_tick (due period span job.0) }
{
    if Plan::LAST_TICK < job.0 {
        return true;
    }
    let at = calendar::deadline_of(period, span, job);
    Plan::LAST_TICK < at.0
}

// Whether the deadline of a task's job is past the last tick.
pub fn deadline_past(plan: &Plan, queue: usize, task: usize, job: Job) -> bool
    requires { Usable plan.now queue × (task < plan.now.tasks) }
    ensures { result ≡ ltb last_tick (deadline_of (queue_at plan.now queue) task job.0) }
{
    past_last(plan.period[task], plan.deadline[task], job)
}

// Whether the release of a job of the queue's receiver is past the last tick.
pub fn release_past(plan: &Plan, queue: usize, job: Job) -> bool
    requires { Usable plan.now queue }
    ensures { result ≡ ltb last_tick (released (receiver_period (queue_at plan.now queue)) job.0) }
{
    let receiver = plan.receiver[queue];
    past_last(plan.period[receiver], 0, job)
}
