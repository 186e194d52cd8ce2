// Equations 1 and 2, and the search for a number's sender, in a queue of a plan. The plan is lent, because it would be copied at every call
// by value. All functions are inner ones: callers have tested the plan (`Lent`) and stay within the last tick, so nothing overflows.
#![tactic(auto)]

pub mod count; // count.rt: the messages with deadlines up to a tick
pub mod number; // number.rt: the number of a task's message
pub mod sender; // sender.rt: the deadline and the sender of a number
