// Digits: bytes as lower-case hexadecimal and back, and numbers in bytes. The functions are inner ones: where they write, they require
// the room that the console has tested.
#![tactic(auto)]

pub mod hex; // hex.rt: digits to bytes and back
pub mod numbers; // numbers.rt: numbers in bytes, high byte first
