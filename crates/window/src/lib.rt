// The window of a receiver's job: its ticks and numbers, the number to read next, and the sender of a number that lies in it. A job reads
// its window by many calls, so a caller may remember the window from one to the next. All functions are inner ones: callers have tested
// the plan (`Lent`) and stay within the last tick.
#![tactic(auto)]

ghost use Rattle.std.specs.Prelude.{◌≡◌, ◌+◌, ◌-◌, ◌^◌, ◌<◌, ◌≤◌};
ghost use Rattle.common.specs.Words.{max};
ghost use Rattle.model.specs.Model.{released, up_to, sender_of};
ghost use Rattle.calendar.specs.Calendar.{tick, message};
ghost use Rattle.plan.specs.Limits.{last_tick};
ghost use Rattle.plan.specs.Plan.{queue_at};
ghost use Rattle.counting.specs.Lent.{Lent};
ghost use Rattle.window.specs.Window.{window_at, runs_at, JobsWindow};
ghost use Rattle.std.specs.Option.{ForSome};

use calendar::{Job, Number, Tick};
use plan::Plan;

// The window of a receiver's job: the messages with deadlines after tick `low` and up to tick `high`, which have the numbers after
// `before` and up to `end`.
#[derive(Clone, Copy)]
pub struct WindowEnds {
    pub low: Tick,
    pub high: Tick,
    pub before: Number,
    pub end: Number,
}

// A queue, and the window of one of its receiver's jobs.
#[derive(Clone, Copy)]
pub struct Remembered {
    pub queue: usize,
    pub window: WindowEnds,
}

// The release of the job before, and tick 0 where there is none.
fn release_before(period: u64, job: Job) -> Tick
    requires { released period job.0 < 2 ^ 64 }
    ensures { result ≡ tick (released period (job.0 - 1)) }
{
    calendar::release_of(period, Job(job.0.saturating_sub(1)))
}

// The window of the job that was released last, of a receiver with the period `every`.
pub fn window_at(plan: &Plan, queue: usize, every: u64, at: Tick) -> WindowEnds
    requires { Lent plan.now queue × (1 ≤ every) × (at.0 ≤ last_tick) }
    ensures { result ≡ window_at (queue_at plan.now queue) every at.0 }
{
    let job = calendar::job_at(every, at);
    let low = release_before(every, job);
    let high = calendar::release_of(every, job);
    let counts = counting::count::up_to_both(plan, queue, low, high);
    // numbers count from 1, so the last number up to a tick is the count of messages up to it
    WindowEnds {
        low,
        high,
        before: Number(counts.low),
        end: Number(counts.high),
    }
}

// Whether a tick comes at or after a release, and before the next one.
fn runs_at(release: Tick, every: u64, at: Tick) -> bool
    ensures { result ≡ runs_at release.0 every at.0 }
{
    release <= at && at.0 - release.0 < every
}

// The window of the job that was released last, of a queue whose receiver has the period `every`: the one that is remembered, where it is
// the same job's.
pub fn window_for(
    plan: &Plan,
    queue: usize,
    every: u64,
    at: Tick,
    remembered: Option<Remembered>,
) -> Remembered
    requires { Lent plan.now queue × (1 ≤ every) × (at.0 ≤ last_tick)
        × ForSome remembered (λ r. r.queue ≡ queue → JobsWindow (queue_at plan.now queue) every r.window) }
    ensures { result ≡ record { queue = queue; window = window_at (queue_at plan.now queue) every at.0 } }
{
    match remembered {
        Some(seen) if seen.queue == queue && runs_at(seen.window.high, every, at) => seen,
        _ => Remembered {
            queue,
            window: window_at(plan, queue, every, at),
        },
    }
}

// The number to read next: a reading place before the window counts as its first number, which is the one after `before`.
pub fn next_number(reading: Number, before: Number) -> Number
    requires { before.0 + 1 < 2 ^ 64 }
    ensures { result ≡ message (max reading.0 (before.0 + 1)) }
{
    reading.max(Number(before.0 + 1))
}

// The sender of message n, whose deadline lies after tick `low` and not after tick `high`.
pub fn sender_in(plan: &Plan, queue: usize, n: Number, low: Tick, high: Tick) -> usize
    requires { Lent plan.now queue × (high.0 ≤ last_tick)
        × (up_to (queue_at plan.now queue) low.0 < n.0)
        × (n.0 ≤ up_to (queue_at plan.now queue) high.0) }
    ensures { result ≡ sender_of (queue_at plan.now queue) last_tick n.0 }
{
    let at = counting::sender::tick_between(plan, queue, n, low, high);
    counting::sender::sender_at(plan, queue, n, at)
}
