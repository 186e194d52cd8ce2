// Send: a task's message into its slot, at most one for each job, and the job recorded in the state's column. A call is lent the plan, and of
// the state its tick and the one column that it changes, because a plan or a state by value would be copied for each line of the console.
// The state as a whole, with the calls as its methods, is the crate `mailbox`, above this one.
#![tactic(auto)]

ghost use Rattle.std.specs.Prelude.{◌≡◌, ◌<◌, ◌≤◌};
ghost use Rattle.calendar.specs.Calendar.{message};
ghost use Rattle.plan.specs.Limits.{last_tick};
ghost use Rattle.plan.specs.Plan.{queue_at};
ghost use Rattle.counting.specs.Lent.{Lent};
ghost use Rattle.running.specs.Calls.{running_deadline, running_number, SendLeaves};

use calendar::{Number, Tick};
use judge::Tested;
use plan::Plan;
use plan::refusal::Refusal;
use running::Stored;

// The number of the message of a task's job that was released last.
fn running_number(plan: &Plan, queue: usize, task: usize, at: Tick) -> Number
    requires { Lent plan.now queue × (task < plan.now.tasks) × (running_deadline (queue_at plan.now queue) task at.0 ≤ last_tick) }
    ensures { result ≡ message (running_number (queue_at plan.now queue) task at.0) }
{
    let period = plan.period[task];
    let job = calendar::job_at(period, at);
    let due = calendar::deadline_of(period, plan.deadline[task], job);
    counting::number::number_due(plan, queue, due, task)
}

// A send: stores the message, and records that the task's job has sent into the queue. `latest` is the state's tick, and `sent` its column of
// jobs.
pub fn send_on(
    tested: Tested,
    memory: &mut [u8],
    latest: &mut Tick,
    sent: &mut [u64; Plan::CELLS],
    queue: usize,
    task: usize,
    at: Tick,
    payload: &[u8],
) -> Result<Stored, Refusal>
    ensures { SendLeaves latest.old.0 sent.old tested.entry.plan.now memory.old queue task at.0 payload.now
        result latest.new sent.new memory.new }
{
    judge::judge_send(tested, memory, queue, task, at, payload, *latest, sent)?;
    let plan = tested.plan;
    let number = running_number(plan, queue, task, at);
    let size = plan.size[queue];
    let slot = slots::places::slot_for(plan.place[queue], size, number);
    slots::store(memory, slot, number, payload);
    let job = calendar::job_at(plan.period[task], at);
    sent[queue * Plan::TASKS + task] = job.0 + 1;
    *latest = at;
    Ok(Stored {
        number,
        slot: slots::places::slot_in(size, number),
    })
}
