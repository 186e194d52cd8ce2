// Planning: from a task table to a plan with the least number of slots, or to the first refusal of rules 1 to 6.
#![tactic(auto)]

ghost use Rattle.std.specs.Prelude.{◌≡◌};
ghost use Rattle.plan.specs.Refusals.{named};
ghost use Rattle.plan.specs.Sound.{Checked};
ghost use Rattle.places.specs.Places.{long_queue};
ghost use Rattle.planning.specs.Planning.{refused_plan, slots_judged, table_judged};
ghost use Rattle.planning.specs.Unique.{PlanGives};

use places::{first_long, places_of, sizes_of, total_of};
use plan::Plan;
use plan::refusal::{Refusal, Rule};

// The answer, and the plan: that of all zeros where the table is refused.
#[derive(Drop)]
pub struct Planned {
    pub answer: Result<(), Refusal>,
    pub plan: Plan,
}

fn refused(rule: Rule, row: usize) -> Planned
    ensures { result ≡ refused_plan (named rule row) }
{
    Planned {
        answer: Err(Refusal { rule, row }),
        plan: Plan::zeros(),
    }
}

// Rule 6, and the plan with its sizes and places.
fn sized(table: Plan) -> Planned
    requires { Checked table × (long_queue table ≡ table.queues) }
    ensures { result ≡ slots_judged table }
{
    let size = sizes_of(&table);
    if Plan::MOST_SLOTS < total_of(table.queues, size) {
        return refused(Rule::TooManySlots, 0);
    }
    let place = places_of(table.queues, size);
    Planned {
        answer: Ok(()),
        plan: Plan {
            size,
            place,
            ..table
        },
    }
}

// Rules 4 to 6, of a table that has passed rules 1 to 3.
fn judged_table(table: Plan) -> Planned
    requires { Checked table }
    ensures { result ≡ table_judged table }
{
    if let Some(long) = first_long(&table) {
        if !sizing::cycle::cycle_short(&table, long) {
            return refused(Rule::HyperperiodTooLong, long);
        }
        return refused(Rule::TooManyMessages, long);
    }
    sized(table)
}

// The plan of a table: so many tasks, each with a period, a deadline and a priority, and so many queues, each with a receiver and a row of the
// square that says which tasks send into it.
pub fn make_plan(
    tasks: usize,
    queues: usize,
    period: [u64; Plan::TASKS],
    deadline: [u64; Plan::TASKS],
    priority: [u8; Plan::TASKS],
    receiver: [usize; Plan::QUEUES],
    square: [[bool; Plan::TASKS]; Plan::QUEUES],
) -> Planned
    ensures { PlanGives tasks queues period deadline priority receiver square result }
{
    if !rules::counts_good(tasks, queues) {
        return refused(Rule::TaskOrQueueCount, 0);
    }
    if let Some(task) = rules::first_bad_task(&period, &deadline, tasks) {
        return refused(Rule::PeriodOrDeadline, task);
    }
    if let Some(queue) = rules::first_bad_queue(square, &receiver, tasks, queues) {
        return refused(Rule::ReceiverOrSender, queue);
    }
    judged_table(tables::tabled(tasks, queues, period, deadline, priority, receiver, square))
}
