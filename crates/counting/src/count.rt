// Equation 1: the messages of a queue with deadlines up to a tick, and up to each of two ticks at once.
ghost use Rattle.std.specs.Prelude.{◌≡◌, ◌+◌, ◌*◌, ◌^◌, ◌<◌, ◌≤◌};
ghost use Rattle.model.specs.Model.{count, up_to};
ghost use Rattle.plan.specs.Limits.{last_tick};
ghost use Rattle.plan.specs.Plan.{queue_at};
ghost use Rattle.counting.specs.Lent.{Lent};

use calendar::Tick;
use plan::Plan;

pub fn up_to(plan: &Plan, queue: usize, at: Tick) -> u64
    requires { Lent plan.now queue × (at.0 ≤ last_tick) }
    ensures { result ≡ up_to (queue_at plan.now queue) at.0 }
{
    let base = queue * Plan::TASKS;
    let mut sum: u64 = 0;
    for i in 0..plan.tasks {
        if plan.sends[base + i] {
            sum += calendar::count(plan.period[i], plan.deadline[i], at);
        }
    }
    sum
}

// How many of a task's jobs have their deadline at or before a tick, and how many ticks after it the next one has.
#[derive(Clone, Copy)]
struct Passed {
    count: u64,
    next: u64,
}

fn passed_at(period: u64, deadline: u64, at: Tick) -> Passed
    requires { (1 ≤ period) × (1 ≤ deadline) }
    ensures { (result.count ≡ count period deadline at.0) × (at.0 + result.next ≡ result.count * period + deadline) × (1 ≤ result.next) }
{
    if at.0 < deadline {
        return Passed {
            count: 0,
            next: deadline - at.0,
        };
    }
    let since = at.0 - deadline;
    Passed {
        count: since / period + 1,
        next: period - since % period,
    }
}

// The deadlines in so many ticks, of which the first comes after `next` of them. Most often there are two at most, and nothing is divided.
// Whether a task has one is as good as chance, so there is no branch on it, which would be guessed wrong.
fn deadlines_in(period: u64, next: u64, ticks: u64) -> u64
    requires { (1 ≤ period) × (1 ≤ next) × (ticks + 1 < 2 ^ 64) }
    ensures { result ≡ count period next ticks }
{
    let first = (ticks + 1).saturating_sub(next);
    let second = first.saturating_sub(period);
    if second <= period {
        first.min(1) + second.min(1)
    } else {
        (ticks - next) / period + 1
    }
}

// The counts up to a tick `low` and up to a tick `high`.
#[derive(Clone, Copy)]
pub struct Counts {
    pub low: u64,
    pub high: u64,
}

// One task's.
fn counts_of(period: u64, deadline: u64, low: Tick, high: Tick) -> Counts
    requires { (1 ≤ period) × (1 ≤ deadline) × (low.0 ≤ high.0) × (high.0 ≤ last_tick) }
    ensures { (result.low ≡ count period deadline low.0) × (result.high ≡ count period deadline high.0) }
{
    let passed = passed_at(period, deadline, low);
    let more = deadlines_in(period, passed.next, high.0 - low.0);
    Counts {
        low: passed.count,
        high: passed.count + more,
    }
}

// A queue's, in one pass over its senders.
pub fn up_to_both(plan: &Plan, queue: usize, low: Tick, high: Tick) -> Counts
    requires { Lent plan.now queue × (low.0 ≤ high.0) × (high.0 ≤ last_tick) }
    ensures { (result.low ≡ up_to (queue_at plan.now queue) low.0) × (result.high ≡ up_to (queue_at plan.now queue) high.0) }
{
    let base = queue * Plan::TASKS;
    let mut both = Counts { low: 0, high: 0 };
    for i in 0..plan.tasks {
        if plan.sends[base + i] {
            let counts = counts_of(plan.period[i], plan.deadline[i], low, high);
            both.low += counts.low;
            both.high += counts.high;
        }
    }
    both
}
