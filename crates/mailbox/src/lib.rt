// The mailbox: the running calls start, send and receive, over a plan, a state and slots in lent memory. Each call tests what it is handed
// and answers; a refused call gives back state and memory as they were. What a call answers and leaves is reckoned in the crate `running`,
// which is lent the column of the state that the call changes.
#![tactic(auto)]

pub mod start; // start.rt: the fresh state, and start
pub mod send; // send.rt: send
pub mod receive; // receive.rt: receive

use calendar::Tick;
use plan::Plan;
use plan::refusal::Refusal;
pub use running::{Received, Stored};

// What the calls remember from one to the next. It is handed in and comes back by value.
#[derive(Clone, Copy)]
pub struct State {
    // the tick of the last accepted send or receive
    pub tick: Tick,
    // of each queue and task, at queue * TASKS + task: the job after the last one sent, 0 for none
    pub sent: [u64; Plan::CELLS],
    // of each queue: the next number to read, 0 where none has been read
    pub reading: [u64; Plan::QUEUES],
}

#[derive(Drop)]
pub struct Starting {
    pub answer: Result<(), Refusal>,
    pub state: State,
}

#[derive(Drop)]
pub struct Sending {
    pub answer: Result<Stored, Refusal>,
    pub state: State,
}

#[derive(Clone, Copy)]
pub struct Receiving {
    pub answer: Received,
    pub state: State,
}
