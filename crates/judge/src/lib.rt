// The tests of the running calls, in the order in which document 01 has them: the first that fails says the refusal. The last of them, rules
// 11, 10, 12 and 13, are the crate `timing`'s. All are inner functions: whether the plan is sound (rule 7) is the caller's to say, since a
// caller that keeps its plan needs to test it only once. What is reckoned for a test fits its type, because the tests before it have passed.
#![tactic(auto)]

ghost use Rattle.std.specs.Prelude.{◌≡◌, ◌+◌, ◌-◌, ◌*◌, ◌≤◌};
ghost use Rattle.common.specs.Words.{true, ltb};
ghost use Rattle.plan.specs.Limits.{queue_limit, most_slots, slot_bytes};
ghost use Rattle.plan.specs.Plan.{size_at, place_at};
ghost use Rattle.plan.specs.Rules.{sound_plan};
ghost use Rattle.plan.specs.Verdicts.{verdict};
ghost use Rattle.judge.specs.Lines.{unsent_at, start_lines, send_lines, receive_lines};

use calendar::{Job, Tick};
use plan::Plan;
use plan::refusal::{Refusal, Rule};

// A lent plan, and whether it is sound, which is rule 7.
#[derive(Clone, Copy)]
pub struct Tested<'a> {
    pub plan: &'a Plan,
    pub sound: bool,
    pub ghost told: { sound ≡ sound_plan plan.now },
}

// The slots of all queues of a plan: the last queue's are the last in memory.
pub fn slots_of(plan: &Plan) -> usize
    requires { (1 ≤ plan.now.queues) × (plan.now.queues ≤ queue_limit)
        × (place_at plan.now (plan.now.queues - 1) + size_at plan.now (plan.now.queues - 1) ≤ most_slots) }
    ensures { result ≡ place_at plan.now (plan.now.queues - 1) + size_at plan.now (plan.now.queues - 1) }
{
    let last = plan.queues - 1;
    plan.place[last] + plan.size[last]
}

// Rule 8.
pub fn judge_start(plan: &Plan, memory: &[u8]) -> Result<(), Refusal>
    requires { sound_plan plan.now ≡ true }
    ensures { result ≡ verdict (start_lines plan.now memory.now) }
{
    if memory.len() < slots_of(plan) * Plan::SLOT_BYTES {
        return Err(Refusal::unnamed(Rule::ShortMemory));
    }
    Ok(())
}

// Rules 7 and 8, which sends and receives ask first.
fn judge_plan(tested: Tested, memory: &[u8]) -> Result<(), Refusal>
    ensures { result ≡ verdict (start_lines tested.entry.plan.now memory.now) }
{
    if !tested.sound {
        return Err(Refusal::unnamed(Rule::UnsoundPlan));
    }
    judge_start(tested.plan, memory)
}

// Rules 7, 8, 14, 9, 11, 10, 12, 13. `before` is the state's tick, and `sent` its column of jobs.
pub fn judge_send(
    tested: Tested,
    memory: &[u8],
    queue: usize,
    task: usize,
    at: Tick,
    payload: &[u8],
    before: Tick,
    sent: &[u64; Plan::CELLS],
) -> Result<(), Refusal>
    ensures { result ≡ verdict (send_lines before.0 (unsent_at sent.now queue task) tested.entry.plan.now memory.now queue task at.0 payload.now) }
{
    judge_plan(tested, memory)?;
    let plan = tested.plan;
    if payload.len() != Plan::PAYLOAD_BYTES {
        return Err(Refusal::unnamed(Rule::PayloadLength));
    }
    if !rules::connected(plan, queue, task) {
        return Err(Refusal::unnamed(Rule::NoSuchSender));
    }
    let unsent = Job(sent[queue * Plan::TASKS + task]);
    timing::judge_running(plan.period[task], plan.deadline[task], at, before, unsent)
}

// Rules 7, 8, 9, 11, 10, 12. `before` is the state's tick.
pub fn judge_receive(
    tested: Tested,
    memory: &[u8],
    queue: usize,
    at: Tick,
    before: Tick,
) -> Result<(), Refusal>
    ensures { result ≡ verdict (receive_lines before.0 tested.entry.plan.now memory.now queue at.0) }
{
    judge_plan(tested, memory)?;
    let plan = tested.plan;
    if plan.queues <= queue {
        return Err(Refusal::unnamed(Rule::NoSuchSender));
    }
    let row = plan.receiver[queue];
    timing::judge_wanting(
        plan.period[row],
        calendar::wanted_for(plan.deadline[row]),
        at,
        before,
    )
}
