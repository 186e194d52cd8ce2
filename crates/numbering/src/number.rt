// Equation 2, and the numbers that bound a window, of a plan's queue. Callers have tested the plan (`Usable`) and stay within the last tick.
ghost use Rattle.std.specs.Prelude.{◌≡◌, ◌≤◌};
ghost use Rattle.model.specs.Model.{Sender, deadline_of, released, receiver_period, number, first, last};
ghost use Rattle.calendar.specs.Calendar.{message};
ghost use Rattle.plan.specs.Limits.{last_tick};
ghost use Rattle.plan.specs.Plan.{queue_at, Usable};

use calendar::{Job, Number};
use counting::count::up_to;
use plan::Plan;

// The number of the message that a task's job sends.
pub fn number_at(plan: &Plan, queue: usize, task: usize, job: Job) -> Number
    requires { Usable plan.now queue × Sender (queue_at plan.now queue) task
        × (deadline_of (queue_at plan.now queue) task job.0 ≤ last_tick) }
    ensures { result ≡ message (number (queue_at plan.now queue) task job.0) }
{
    let at = calendar::deadline_of(plan.period[task], plan.deadline[task], job);
    counting::number::number_due(plan, queue, at, task)
}

// The last number of the window of a receiver's job.
pub fn last_number(plan: &Plan, queue: usize, job: Job) -> Number
    requires { Usable plan.now queue × (released (receiver_period (queue_at plan.now queue)) job.0 ≤ last_tick) }
    ensures { result ≡ message (last (queue_at plan.now queue) job.0) }
{
    let receiver = plan.receiver[queue];
    let at = calendar::release_of(plan.period[receiver], job);
    Number(up_to(plan, queue, at))
}

// The first number of that window: one more than the last of the job before. Job 0 has none before it, and no row is counted.
pub fn first_number(plan: &Plan, queue: usize, job: Job) -> Number
    requires { Usable plan.now queue × (released (receiver_period (queue_at plan.now queue)) job.0 ≤ last_tick) }
    ensures { result ≡ message (first (queue_at plan.now queue) job.0) }
{
    let Some(earlier) = job.0.checked_sub(1) else {
        return Number(1);
    };
    let before = last_number(plan, queue, Job(earlier));
    Number(before.0 + 1)
}
