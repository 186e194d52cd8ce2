// How much a queue takes: its hyperperiod, the messages in it, and the least number of slots.
// All functions are inner ones: planning, which calls them, has tested rules 1 to 3 (`Usable`).
#![tactic(auto)]

pub mod cycle; // cycle.rt: a queue's hyperperiod and the messages in it
pub mod needs; // needs.rt: the slots that one message asks for
pub mod sizes; // sizes.rt: the least number of slots of one queue
