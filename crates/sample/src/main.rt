// A sample for who writes the box's software: two receives of one chart job, from a task table to the bytes that the chart shows.
// docs/LIBRARY.md goes through `main` line by line. It leans on planning, mailbox and view.
#![tactic(auto)]

use calendar::Tick;
use mailbox::State;
use plan::Plan;

// Table A: two probes, every 5 and 7 ticks, and a chart, every 10, with deadlines equal to periods. Rows behind the third are ignored.
const PERIOD: [u64; Plan::TASKS] = [5, 7, 10, 0, 0, 0, 0, 0, 0, 0, 0, 0, 0, 0, 0, 0];

// All of one priority: of equal deadlines the lower row goes first.
const PRIORITY: [u8; Plan::TASKS] = [0; Plan::TASKS];

// Queue 0 is received by task 2.
const RECEIVER: [usize; Plan::QUEUES] = [2, 0, 0, 0, 0, 0, 0, 0];

// Tasks 0 and 1 send into queue 0.
fn senders() -> [[bool; Plan::TASKS]; Plan::QUEUES] {
    let mut square = [[false; Plan::TASKS]; Plan::QUEUES];
    square[0][0] = true;
    square[0][1] = true;
    square
}

fn main(rt: HostRuntime) {
    let damp = b"damp: 41 %             \n";
    let filler = b"no reading             \n";
    let mut memory = [0u8; Plan::MOST_SLOTS * Plan::SLOT_BYTES];
    let plan = planning::make_plan(3, 1, PERIOD, PERIOD, PRIORITY, RECEIVER, senders()).plan;
    let started = State::start(plan, &mut memory);
    let sent = started.state.send(plan, &mut memory, 0, 1, Tick(3), damp);
    let first = sent.state.receive(plan, &memory, 0, Tick(10));
    let gap = first.answer;
    let _ = rt.write_all(view::view(gap, &memory, filler));
    let second = first.state.receive(plan, &memory, 0, Tick(10));
    let message = second.answer;
    let _ = rt.write_all(view::view(message, &memory, filler));
}
