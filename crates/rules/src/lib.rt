// Rules 1, 2 and 3: what a task table has to keep. Planning asks these functions of a table, and rule 7 of a plan that is handed in.
// Rule 9, which sends and the lookup of a number ask, is here too.
#![tactic(auto)]

ghost use Rattle.std.specs.Prelude.{◌≡◌, ◌≤◌};
ghost use Rattle.common.specs.Words.{false, get_or};
ghost use Rattle.plan.specs.Limits.{task_limit, queue_limit};
ghost use Rattle.plan.specs.Rules.{counts_good, task_good, bad_task, only_tasks_send, queue_good, bad_queue, row_below, connected};

use plan::Plan;

// Rule 1.
pub fn counts_good(tasks: usize, queues: usize) -> bool
    ensures { result ≡ counts_good tasks queues }
{
    (1..=Plan::TASKS).contains(&tasks) && (1..=Plan::QUEUES).contains(&queues)
}

fn task_good(period: u64, deadline: u64) -> bool
    ensures { result ≡ task_good period deadline }
{
    (1..=Plan::LONGEST_PERIOD).contains(&period) && (1..=period).contains(&deadline)
}

// Rule 2: the first task that breaks it.
pub fn first_bad_task(
    period: &[u64; Plan::TASKS],
    deadline: &[u64; Plan::TASKS],
    tasks: usize,
) -> Option<usize>
    requires { tasks ≤ task_limit }
    ensures { result ≡ row_below tasks (bad_task period.now deadline.now tasks) }
{
    (0..tasks).find(|&i| !task_good(period[i], deadline[i]))
}

// A row that is no task may not send.
fn only_tasks_send(row: &[bool; Plan::TASKS], tasks: usize) -> bool
    ensures { result ≡ only_tasks_send tasks (λ i. get_or row.now i false) }
{
    row.iter()
        .enumerate()
        .all(|(i, &sends)| !sends || i < tasks)
}

fn queue_good(tasks: usize, receiver: usize, row: &[bool; Plan::TASKS]) -> bool
    ensures { result ≡ queue_good tasks receiver (λ i. get_or row.now i false) }
{
    receiver < tasks && only_tasks_send(row, tasks) && row.contains(&true)
}

// Rule 3: the first queue that breaks it.
pub fn first_bad_queue(
    square: [[bool; Plan::TASKS]; Plan::QUEUES],
    receiver: &[usize; Plan::QUEUES],
    tasks: usize,
    queues: usize,
) -> Option<usize>
    requires { queues ≤ queue_limit }
    ensures { result ≡ row_below queues (bad_queue square receiver.now tasks queues) }
{
    (0..queues).find(|&q| !queue_good(tasks, receiver[q], &square[q]))
}

// Rule 9: whether the task sends into the queue, and both are there.
pub fn connected(plan: &Plan, queue: usize, task: usize) -> bool
    requires { (plan.now.queues ≤ queue_limit) × (plan.now.tasks ≤ task_limit) }
    ensures { result ≡ connected plan.now queue task }
{
    queue < plan.queues && task < plan.tasks && plan.sends[queue * Plan::TASKS + task]
}
