// A queue's hyperperiod and the messages in it, of a table that has passed rules 1 to 3.
ghost use Rattle.std.specs.Prelude.{◌≡◌, ◌&&◌, ◌≤◌};
ghost use Rattle.model.specs.Model.{hyperperiod, messages};
ghost use Rattle.calendar.specs.Calendar.{capped};
ghost use Rattle.plan.specs.Limits.{longest_hyperperiod};
ghost use Rattle.plan.specs.Plan.{queue_at, Usable};
ghost use Rattle.sizing.specs.Cycle.{cycle_short, messages_few};

use plan::Plan;

// The least common multiple of the receiver's period and the senders', where it is within the limit.
pub fn hyperperiod_of(plan: &Plan, queue: usize) -> Option<u64>
    requires { Usable plan.now queue }
    ensures { result ≡ capped longest_hyperperiod (hyperperiod (queue_at plan.now queue)) }
{
    let base = queue * Plan::TASKS;
    let mut multiple = plan.period[plan.receiver[queue]];
    for i in 0..plan.tasks {
        if plan.sends[base + i] {
            multiple = calendar::common_multiple(
                multiple,
                plan.period[i],
                Plan::LONGEST_HYPERPERIOD,
            )?;
        }
    }
    Some(multiple)
}

// The messages that a queue's senders send in so many ticks.
fn messages_in(plan: &Plan, queue: usize, ticks: u64) -> u64
    requires { Usable plan.now queue × (ticks ≤ longest_hyperperiod) }
    ensures { result ≡ messages (queue_at plan.now queue) ticks }
{
    let base = queue * Plan::TASKS;
    let mut sum: u64 = 0;
    for i in 0..plan.tasks {
        if plan.sends[base + i] {
            sum += ticks / plan.period[i];
        }
    }
    sum
}

// Rule 4 for one queue.
pub fn cycle_short(plan: &Plan, queue: usize) -> bool
    requires { Usable plan.now queue }
    ensures { result ≡ cycle_short plan.now queue }
{
    hyperperiod_of(plan, queue).is_some()
}

// Rules 4 and 5 for one queue.
pub fn cycle_good(plan: &Plan, queue: usize) -> bool
    requires { Usable plan.now queue }
    ensures { result ≡ (cycle_short plan.now queue && messages_few plan.now queue) }
{
    let Some(ticks) = hyperperiod_of(plan, queue) else {
        return false;
    };
    messages_in(plan, queue, ticks) <= Plan::MOST_MESSAGES
}
