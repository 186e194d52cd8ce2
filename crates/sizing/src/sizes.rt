// The least number of slots of a queue: the most that a job of the second hyperperiod asks for.
ghost use Rattle.std.specs.Prelude.{◌≡◌, ◌+◌, ◌*◌, ◌<◌, ◌≤◌};
ghost use Rattle.common.specs.Words.{ℕ};
ghost use Rattle.model.specs.Model.{Sender, row_slots, slots_over};
ghost use Rattle.calendar.specs.Calendar.{tick};
ghost use Rattle.plan.specs.Limits.{last_tick, longest_hyperperiod};
ghost use Rattle.plan.specs.Plan.{queue_at, Usable};
ghost use Rattle.sizing.specs.Needs.{horizon_for};

use crate::needs::need_of;
use calendar::{Job, Tick};
use plan::Plan;

// The last deadline whose messages are outdated at a tick, where the receiver has the period `chart` and wants its messages so long.
fn horizon_at(chart: u64, wanted: u64, at: Tick) -> Tick
    requires { 1 ≤ chart }
    ensures { result ≡ tick (horizon_for chart wanted at.0) }
{
    let job = calendar::job_at(chart, Tick(at.0.saturating_sub(wanted)));
    calendar::release_of(chart, job)
}

// Of a task's jobs of the second hyperperiod, which are `jobs` in number and counted from 0 here, the last one that is released before
// `until`.
fn last_before(period: u64, jobs: u64, until: Tick) -> u64
    requires { (1 ≤ period) × (1 ≤ jobs) × (jobs ≤ last_tick) × (jobs * period < until.0) }
    ensures { (result < jobs) × ((jobs + result) * period < until.0)
        × ((k : ℕ) → k < jobs → (jobs + k) * period < until.0 → k ≤ result) }
{
    let last = (until.0 - 1) / period;
    (last - jobs).min(jobs - 1)
}

// The most that a task's jobs of the second hyperperiod ask for. As long as the horizon stays where it is, a later job asks for more: only
// the last one that is released before it moves is asked.
fn row_slots(plan: &Plan, queue: usize, task: usize, ticks: u64) -> u64
    requires { Usable plan.now queue × Sender (queue_at plan.now queue) task × (ticks ≤ longest_hyperperiod) }
    ensures { result ≡ row_slots (queue_at plan.now queue) ticks task }
{
    let receiver = plan.receiver[queue];
    let chart = plan.period[receiver];
    let wanted = calendar::wanted_for(plan.deadline[receiver]);
    let each = plan.period[task];
    let jobs = ticks / each;
    let mut most: u64 = 0;
    let mut k: u64 = 0;
    while k < jobs {
        let release = calendar::release_of(each, Job(jobs + k));
        let horizon = horizon_at(chart, wanted, release);
        let last = last_before(each, jobs, Tick(horizon.0 + wanted + chart));
        let due = calendar::deadline_of(each, plan.deadline[task], Job(jobs + last));
        let need = need_of(plan, queue, task, due, horizon);
        most = most.max(need);
        k = last + 1;
    }
    most
}

// The most that any sender asks for.
pub fn slots_over(plan: &Plan, queue: usize, ticks: u64) -> u64
    requires { Usable plan.now queue × (ticks ≤ longest_hyperperiod) }
    ensures { result ≡ slots_over (queue_at plan.now queue) ticks }
{
    let base = queue * Plan::TASKS;
    let mut greatest: u64 = 0;
    for i in 0..plan.tasks {
        if plan.sends[base + i] {
            greatest = greatest.max(row_slots(plan, queue, i, ticks));
        }
    }
    greatest
}
