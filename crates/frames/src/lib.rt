// Frames: what the bytes of a line say, and the lines that answer it. Nothing here knows a table, a plan or a state. The functions are
// inner ones: where they write, they require the room that the console has tested.
#![tactic(auto)]

pub mod frame; // frame.rt: the five frames that the console reads
pub mod answers; // answers.rt: the lines that it writes
