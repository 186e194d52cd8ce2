// One task's calendar: its releases and deadlines, and the common multiple of two periods. Ticks, jobs, message numbers and slots are
// counted from different places, so each has a type of its own wherever a function hands one on; so many ticks, messages or slots are
// plain numbers. All functions are inner ones: they require what the crates above have tested.
#![tactic(auto)]

ghost use Rattle.std.specs.Prelude.{◌≡◌, ◌+◌, ◌<◌, ◌≤◌, ◌^◌, ◌/◌};
ghost use Rattle.model.specs.Model.{Queue, receiver_deadline, wanted_for, count, has_deadline, released, due, gcd, lcm};
ghost use Rattle.calendar.specs.Calendar.{tick, job, capped};

// A moment, counted from tick 0.
#[derive(Clone, Copy, PartialEq, Eq, PartialOrd, Ord)]
pub struct Tick(pub u64);

// A task's job, counted from job 0, which is released at tick 0.
#[derive(Clone, Copy, PartialEq, Eq, PartialOrd, Ord)]
pub struct Job(pub u64);

// A queue's message, counted from 1. Number 0 is no message's.
#[derive(Clone, Copy, PartialEq, Eq, PartialOrd, Ord)]
pub struct Number(pub u64);

// A slot, counted from slot 0.
#[derive(Clone, Copy, PartialEq, Eq, PartialOrd, Ord)]
pub struct Slot(pub usize);

// The tick at which a job is released.
pub fn release_of(period: u64, job: Job) -> Tick
    requires { released period job.0 < 2 ^ 64 }
    ensures { result ≡ tick (released period job.0) }
{
    Tick(job.0 * period)
}

// The tick at which a job has its deadline.
pub fn deadline_of(period: u64, deadline: u64, job: Job) -> Tick
    requires { due period deadline job.0 < 2 ^ 64 }
    ensures { result ≡ tick (due period deadline job.0) }
{
    Tick(job.0 * period + deadline)
}

// The job that was released last, at or before a tick.
pub fn job_at(period: u64, at: Tick) -> Job
    requires { 1 ≤ period }
    ensures { result ≡ job (at.0 / period) }
{
    Job(at.0 / period)
}

// How many of a task's jobs have their deadline at or before a tick. No deadline is longer than its period, so the quotient is 0 before
// the first one, and no branch asks for it.
pub fn count(period: u64, deadline: u64, at: Tick) -> u64
    requires { (1 ≤ period) × (deadline ≤ period) × (at.0 + period < 2 ^ 64) }
    ensures { result ≡ count period deadline at.0 }
{
    (at.0 + (period - deadline)) / period
}

// Whether one of a task's jobs has its deadline at a tick.
pub fn has_deadline(period: u64, deadline: u64, at: Tick) -> bool
    requires { (1 ≤ period) × (1 ≤ deadline) }
    ensures { result ≡ has_deadline period deadline at.0 }
{
    deadline <= at.0 && (at.0 - deadline) % period == 0
}

// For how many ticks after one of its releases a receiver with this deadline wants the messages that it is given then.
pub fn wanted_for(deadline: u64) -> u64
    ensures { (q : Queue) → receiver_deadline q ≡ deadline → result ≡ wanted_for q }
{
    deadline
}

// The greatest common divisor by Euclid's rule: the second number falls.
pub fn gcd(a: u64, b: u64) -> u64
    ensures { result ≡ gcd a b }
{
    if b == 0 { a } else { gcd(b, a % b) }
}

// The least common multiple of two periods where it is within the limit. It divides before it multiplies and compares by a quotient,
// so nothing overflows.
pub fn common_multiple(a: u64, b: u64, limit: u64) -> Option<u64>
    requires { (1 ≤ a) × (1 ≤ b) }
    ensures { result ≡ capped limit (lcm a b) }
{
    let factor = b / gcd(a, b);
    if limit / a < factor {
        return None;
    }
    Some(a * factor)
}
