// The lines on a table and its plan, and the lookups. The table is kept as a plan without sizes and places; a row that has no place in
// it is counted all the same, so that a table of 17 tasks or 9 queues comes to planning as one.
use crate::text::{Line, say, say_refused};
use calendar::{Job, Number};
use plan::Plan;
use plan::refusal::Refusal;
use std::array;
use std::io::Stdout;

// The tasks of a line `tasks P/D P/D ..`, and no queue yet.
fn tasks_of(line: Line) -> Plan {
    Plan {
        tasks: line.count() / 2,
        period: array::from_fn(|i| line.number(2 * i)),
        deadline: array::from_fn(|i| line.number(2 * i + 1)),
        ..Plan::zeros()
    }
}

// The queue of a line `queue R s s ..` is added.
fn add_queue(table: &mut Plan, line: Line) {
    let queue = table.queues;
    if Plan::QUEUES <= queue {
        table.queues = Plan::QUEUES + 1;
        return;
    }
    table.queues = queue + 1;
    table.receiver[queue] = line.number(0) as usize;
    for k in 1..line.count() {
        let task = line.number(k) as usize;
        if task < Plan::TASKS {
            table.sends[queue * Plan::TASKS + task] = true;
        }
    }
}

// What a line makes of the table. Behind `urgency` stand the priorities, 0 where none is written.
pub fn change_table(table: &mut Plan, line: Line) {
    match line.word() {
        b't' => *table = tasks_of(line),
        b'u' => table.priority = array::from_fn(|i| (line.number(i) % 256) as u8),
        b'q' => add_queue(table, line),
        _ => {}
    }
}

// The slots of each of a plan's queues: how many, and the first one's place.
fn say_plan(stdout: Stdout, plan: &Plan) {
    for (size, place) in plan.size.iter().zip(&plan.place).take(plan.queues) {
        say(stdout, "slots ", *size as u64, *place as u64);
    }
}

// Plans the table, and says what planning answers.
fn planned(stdout: Stdout, table: &Plan) -> Plan {
    let made = planning::make_plan(
        table.tasks,
        table.queues,
        table.period,
        table.deadline,
        table.priority,
        table.receiver,
        soundness::square::square_of(&table.sends),
    );
    match made.answer {
        Ok(()) => say_plan(stdout, &made.plan),
        Err(refusal) => say_refused(stdout, refusal),
    }
    made.plan
}

// A line `alter FIELD VALUE` or `alter FIELD INDEX VALUE`. An index counts modulo the field's length.
fn alter(plan: &mut Plan, line: Line) {
    let i = line.number(0) as usize;
    let value = line.number(1);
    match line.field() {
        b't' => plan.tasks = i,
        b'q' => plan.queues = i,
        b'p' => plan.period[i % Plan::TASKS] = value,
        b'd' => plan.deadline[i % Plan::TASKS] = value,
        b'u' => plan.priority[i % Plan::TASKS] = (value % 256) as u8,
        b'r' => plan.receiver[i % Plan::QUEUES] = value as usize,
        b's' => plan.sends[i % Plan::CELLS] = value != 0,
        b'l' => plan.size[i % Plan::QUEUES] = value as usize,
        b'o' => plan.place[i % Plan::QUEUES] = value as usize,
        _ => {}
    }
}

// The lines `number q i k`, `back q n` and `window q m`: a lookup's answer.
fn look_up(stdout: Stdout, plan: Plan, line: Line) -> Result<(), Refusal> {
    let queue = line.number(0) as usize;
    let second = line.number(1);
    match line.word() {
        b'n' => {
            let job = Job(line.number(2));
            let number = lookups::number_of(plan, queue, second as usize, job)?.0;
            let _ = println!(stdout; "{number}");
        }
        b'b' => {
            let origin = lookups::way_back(plan, queue, Number(second))?;
            say(stdout, "", origin.task as u64, origin.job.0);
        }
        b'w' => {
            let window = lookups::window_of(plan, queue, Job(second))?;
            say(stdout, "", window.first.0, window.last.0);
        }
        _ => {}
    }
    Ok(())
}

// What a line makes of the plan. A line that leaves it as it is may ask for a lookup.
pub fn change_plan(stdout: Stdout, plan: &mut Plan, table: &Plan, line: Line) {
    match line.word() {
        b'p' => *plan = planned(stdout, table),
        b'a' => alter(plan, line),
        _ => {
            if let Err(refusal) = look_up(stdout, *plan, line) {
                say_refused(stdout, refusal);
            }
        }
    }
}
