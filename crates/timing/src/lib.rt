// Whether a tick suits the state and the running job: rules 11, 10, 12 and 13, in the order in which document 01 has them. They are the last
// tests of a send and of a receive, and inner functions: what is reckoned here fits its type, because the caller has tested the plan that
// period and deadline are of, and line 11 comes first.
#![tactic(auto)]

ghost use Rattle.std.specs.Prelude.{◌≡◌, ◌≤◌};
ghost use Rattle.calendar.specs.Calendar.{tick};
ghost use Rattle.plan.specs.Limits.{longest_period, last_tick};
ghost use Rattle.plan.specs.Verdicts.{verdict};
ghost use Rattle.timing.specs.Timing.{ending, running_lines, wanting_lines};

use calendar::{Job, Tick};
use plan::Plan;
use plan::refusal::{Refusal, Rule};

// The tick that lies `span` ticks behind the release of the job that was released last.
fn end_of_job(period: u64, span: u64, at: Tick) -> Tick
    requires { (1 ≤ period) × (span ≤ longest_period) × (at.0 ≤ last_tick) }
    ensures { result ≡ tick (ending period span at.0) }
{
    let job = calendar::job_at(period, at);
    calendar::deadline_of(period, span, job)
}

// Rules 11, 10, 12, 13 of a sender: `before` is the state's tick, and `unsent` the job after the last one that it sent.
pub fn judge_running(
    period: u64,
    deadline: u64,
    at: Tick,
    before: Tick,
    unsent: Job,
) -> Result<(), Refusal>
    requires { (1 ≤ period) × (deadline ≤ longest_period) }
    ensures { result ≡ verdict (running_lines before.0 unsent.0 period deadline at.0) }
{
    if Plan::LAST_TICK < at.0 {
        return Err(Refusal::unnamed(Rule::PastLastTick));
    }
    let end = end_of_job(period, deadline, at);
    if Plan::LAST_TICK < end.0 {
        return Err(Refusal::unnamed(Rule::PastLastTick));
    }
    if at < before {
        return Err(Refusal::unnamed(Rule::TickBeforeState));
    }
    if end <= at {
        return Err(Refusal::unnamed(Rule::JobOver));
    }
    if calendar::job_at(period, at) < unsent {
        return Err(Refusal::unnamed(Rule::SentAlready));
    }
    Ok(())
}

// Rules 11, 10, 12 of a receiver, whose job wants its messages for so many ticks: `before` is the state's tick.
pub fn judge_wanting(period: u64, wanted: u64, at: Tick, before: Tick) -> Result<(), Refusal>
    requires { (1 ≤ period) × (wanted ≤ longest_period) }
    ensures { result ≡ verdict (wanting_lines before.0 period wanted at.0) }
{
    if Plan::LAST_TICK < at.0 {
        return Err(Refusal::unnamed(Rule::PastLastTick));
    }
    if at < before {
        return Err(Refusal::unnamed(Rule::TickBeforeState));
    }
    let until = end_of_job(period, wanted, at);
    if until <= at {
        return Err(Refusal::unnamed(Rule::JobOver));
    }
    Ok(())
}
