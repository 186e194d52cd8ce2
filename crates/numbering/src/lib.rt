// Message numbers and the way back from them, of a plan's queue. All functions are inner ones, for callers that have tested plan and
// queue already; the lookups above them are for everyone.
#![tactic(auto)]

pub mod number; // number.rt: the number of a job's message, and the last and first number of a window
pub mod origin; // origin.rt: the deadline, the sender and the job behind a number
pub mod reach; // reach.rt: what a lookup can reach, rule 11
