// Frames 01 to 03: the rows of the table, and the plan that is made of them and started. Each answers how many bytes it wrote.
ghost use Rattle.std.specs.Prelude.{◌≡◌, ◌≤◌};
ghost use Rattle.common.specs.Words.{List, ℕ, leb, length};
ghost use Rattle.frames.specs.Answers.{longest_answer};
ghost use Rattle.mailbox.specs.Calls.{start_answer};
ghost use Rattle.desk.specs.Turns.{takes_row};
ghost use Rattle.desk.specs.Desk.{task_turn, queue_turn, planned, refused_go, start_turn, go_turn, Takes};

use crate::Desk;
use crate::squares::square_of;
use frames::answers::{write_bad, write_refusal, write_sizes};
use mailbox::State;
use plan::Plan;
use plan::refusal::Refusal;
use planning::Planned;

// Whether a table with so many rows of a kind takes one more: nothing runs, and there is room.
fn takes_row(running: bool, rows: usize, most: usize) -> bool
    ensures { result ≡ takes_row running (leb most rows) }
{
    !running && rows < most
}

pub fn add_task(desk: &mut Desk, out: &mut [u8], period: u64, deadline: u64, priority: u8) -> usize
    requires { longest_answer ≤ length out.old }
    ensures { (m : List ℕ) → Takes (task_turn desk.old m period deadline priority) out.old desk.new result m out.new }
{
    let row = desk.tasks;
    if !takes_row(desk.running, row, Plan::TASKS) {
        return write_bad(out);
    }
    desk.tasks = row + 1;
    desk.period[row] = period;
    desk.deadline[row] = deadline;
    desk.priority[row] = priority;
    0
}

pub fn add_queue(desk: &mut Desk, out: &mut [u8], receiver: usize, mask: u64) -> usize
    requires { longest_answer ≤ length out.old }
    ensures { (m : List ℕ) → Takes (queue_turn desk.old m receiver mask) out.old desk.new result m out.new }
{
    let row = desk.queues;
    if !takes_row(desk.running, row, Plan::QUEUES) {
        return write_bad(out);
    }
    desk.queues = row + 1;
    desk.receiver[row] = receiver;
    desk.senders[row] = mask;
    0
}

fn plan_of(desk: &Desk) -> Planned
    ensures { result ≡ planned desk.now }
{
    planning::make_plan(
        desk.tasks,
        desk.queues,
        desk.period,
        desk.deadline,
        desk.priority,
        desk.receiver,
        square_of(&desk.senders),
    )
}

// A refused 03 empties the table.
fn refuse(desk: &mut Desk, out: &mut [u8], refusal: Refusal) -> usize
    requires { longest_answer ≤ length out.old }
    ensures { (m : List ℕ) → Takes (refused_go m refusal) out.old desk.new result m out.new }
{
    *desk = Desk::new();
    write_refusal(out, refusal)
}

fn start(desk: &mut Desk, plan: Plan, memory: &mut [u8], out: &mut [u8]) -> usize
    requires { longest_answer ≤ length out.old }
    ensures { Takes (start_turn desk.old plan memory.old (start_answer plan memory.old)) out.old desk.new result memory.new out.new }
{
    let starting = State::start(plan, memory);
    if let Err(refusal) = starting.answer {
        return refuse(desk, out, refusal);
    }
    desk.running = true;
    desk.plan = plan;
    desk.state = starting.state;
    write_sizes(out, &plan.size[..plan.queues])
}

// Plans the table and starts.
pub fn go(desk: &mut Desk, memory: &mut [u8], out: &mut [u8]) -> usize
    requires { longest_answer ≤ length out.old }
    ensures { Takes (go_turn desk.old memory.old) out.old desk.new result memory.new out.new }
{
    if desk.running {
        return write_bad(out);
    }
    let planned = plan_of(desk);
    if let Err(refusal) = planned.answer {
        return refuse(desk, out, refusal);
    }
    start(desk, planned.plan, memory, out)
}
