// The running calls: what start, send and receive answer, and what they leave of the slots and of a state, is defined in specs/Calls.antt.
// Here are the answers' types, and start; a send is the crate `sending`, a receive the crates `stepping` and `receiving`, and the state
// itself the crate `mailbox`. Which bytes a receive's answer is about is defined in specs/View.antt, and shown by the crate `view`.
#![tactic(auto)]

pub mod start; // start.rt: start

use calendar::{Number, Slot};
use plan::refusal::Refusal;
pub use window::Remembered;

// What an accepted send answers. The slot is counted within its queue.
#[derive(Clone, Copy)]
pub struct Stored {
    pub number: Number,
    pub slot: Slot,
}

// What a receive answers: document 01's four kinds, so no Result of three. A message's slot is counted from the start of memory; a gap
// names the row of the sender that sent nothing.
#[derive(Clone, Copy)]
pub enum Received {
    Message(Number, Slot),
    Gap(Number, usize),
    Empty,
    Refused(Refusal),
}

// What a receive answers, and the window that it looked into, for the next one.
#[derive(Clone, Copy)]
pub struct Looked {
    pub answer: Received,
    pub remembered: Option<Remembered>,
}
