// The three lookups: number, way back and window. They take any plan and any numbers, test rules 7, 9, then 11 or 15, and change nothing.
#![tactic(auto)]

ghost use Rattle.std.specs.Prelude.{◌≡◌};
ghost use Rattle.plan.specs.Verdicts.{verdict};
ghost use Rattle.lookups.specs.Lookups.{queue_lines};
ghost use Rattle.lookups.specs.Unique.{NumberGives, WayBackGives, WindowGives};

use calendar::{Job, Number, Tick};
pub use numbering::origin::Origin;
use plan::Plan;
use plan::refusal::{Refusal, Rule};
use soundness::sound;

// The first and the last number, the last one below the first where the window is empty.
#[derive(Clone, Copy)]
pub struct Window {
    pub first: Number,
    pub last: Number,
}

// The number of the message that a task's job sends into a queue.
#[tactic(auto, unfolding(crate::specs::Lookups::numbered_of))]
pub fn number_of(plan: Plan, queue: usize, task: usize, job: Job) -> Result<Number, Refusal>
    ensures { NumberGives plan queue task job result }
{
    if !sound(&plan) {
        return Err(Refusal::unnamed(Rule::UnsoundPlan));
    }
    if !rules::connected(&plan, queue, task) {
        return Err(Refusal::unnamed(Rule::NoSuchSender));
    }
    if numbering::reach::deadline_past(&plan, queue, task, job) {
        return Err(Refusal::unnamed(Rule::PastLastTick));
    }
    Ok(numbering::number::number_at(&plan, queue, task, job))
}

// Rules 7 and 9 where no task is asked for: the plan is sound, and it has the queue.
fn judge_queue(plan: &Plan, queue: usize) -> Result<(), Refusal>
    ensures { result ≡ verdict (queue_lines plan.now queue) }
{
    if !sound(plan) {
        return Err(Refusal::unnamed(Rule::UnsoundPlan));
    }
    if plan.queues <= queue {
        return Err(Refusal::unnamed(Rule::NoSuchSender));
    }
    Ok(())
}

// The sender and the job of a queue's message.
#[tactic(auto, unfolding(crate::specs::Lookups::origins_of))]
pub fn way_back(plan: Plan, queue: usize, n: Number) -> Result<Origin, Refusal>
    ensures { WayBackGives plan queue n result }
{
    judge_queue(&plan, queue)?;
    if n.0 == 0 || counting::count::up_to(&plan, queue, Tick(Plan::LAST_TICK)) < n.0 {
        return Err(Refusal::unnamed(Rule::NoSuchNumber));
    }
    Ok(numbering::origin::origin_of(&plan, queue, n))
}

// The numbers of the messages that a job of the queue's receiver is given.
#[tactic(auto, unfolding(crate::specs::Lookups::window_of))]
pub fn window_of(plan: Plan, queue: usize, job: Job) -> Result<Window, Refusal>
    ensures { WindowGives plan queue job result }
{
    judge_queue(&plan, queue)?;
    if numbering::reach::release_past(&plan, queue, job) {
        return Err(Refusal::unnamed(Rule::PastLastTick));
    }
    let first = numbering::number::first_number(&plan, queue, job);
    let last = numbering::number::last_number(&plan, queue, job);
    Ok(Window { first, last })
}
