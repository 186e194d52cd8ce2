// The console's desk: the table so far, then the plan and the state of a run. Here a line's frame changes the desk as a whole: a row more,
// or the table planned and started. Each function takes a turn of specs/Desk.antt.
#![tactic(auto)]

mod squares; // squares.rt: which task sends into which queue, from the sender masks
mod table; // table.rt: frames 01 to 03, until a plan is accepted

ghost use Rattle.std.specs.Prelude.{◌≡◌, ◌≤◌};
ghost use Rattle.common.specs.Words.{length};
ghost use Rattle.frames.specs.Answers.{longest_answer};
ghost use Rattle.desk.specs.Desk.{new_desk, table_turn, Takes};

use frames::frame::Frame;
use mailbox::State;
use plan::Plan;
use table::{add_queue, add_task, go};

#[derive(Clone, Copy)]
pub struct Desk {
    // the rows of the table so far
    pub tasks: usize,
    pub queues: usize,
    // of each task
    pub period: [u64; Plan::TASKS],
    pub deadline: [u64; Plan::TASKS],
    pub priority: [u8; Plan::TASKS],
    // of each queue: its receiver's row, and a mask with bit i for task i
    pub receiver: [usize; Plan::QUEUES],
    pub senders: [u64; Plan::QUEUES],
    // a plan was accepted and started
    pub running: bool,
    pub plan: Plan,
    pub state: State,
}

impl Desk {
    // An empty table.
    pub fn new() -> Desk
        ensures { result ≡ new_desk }
    {
        Desk {
            tasks: 0,
            queues: 0,
            period: [0; Plan::TASKS],
            deadline: [0; Plan::TASKS],
            priority: [0; Plan::TASKS],
            receiver: [0; Plan::QUEUES],
            senders: [0; Plan::QUEUES],
            running: false,
            plan: Plan::zeros(),
            state: State::fresh(),
        }
    }
}

// Frames 01 to 03, which change the desk as a whole; answers how many bytes of the buffer were written. Another frame does not belong to
// the table.
pub fn set_table(desk: &mut Desk, memory: &mut [u8], frame: Frame, out: &mut [u8]) -> usize
    requires { longest_answer ≤ length out.old }
    ensures { Takes (table_turn desk.old memory.old frame) out.old desk.new result memory.new out.new }
{
    match frame {
        Frame::Task(period, deadline, priority) => add_task(desk, out, period, deadline, priority),
        Frame::Queue(receiver, mask) => add_queue(desk, out, receiver, mask),
        Frame::Go => go(desk, memory, out),
        Frame::Send(_, _, _) | Frame::Receive(_, _) | Frame::Bad => frames::answers::write_bad(out),
    }
}
