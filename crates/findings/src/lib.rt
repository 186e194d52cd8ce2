// What reading a text comes to: its table, a refusal with its place, or no room. It leans on the plan's limits and on the refusals alone,
// so that what goes on with a finding, in planning, in lines or in words, does not reach the reader.
#![tactic(auto)]

ghost use Rattle.std.specs.Prelude.{◌≡◌};
ghost use Rattle.findings.specs.Findings.{rule_of, no_table};

use plan::Plan;
pub use steps::{Fault as Refusal, Rule};

// Why a text has no table. NoRoom is for memory that is too short for some text.
#[derive(Clone, Copy, PartialEq, Eq)]
pub enum Problem {
    Refused(Refusal),
    NoRoom,
}

// What planning takes. Where there are more threads or queues than a plan has room for, the counts still are theirs.
#[derive(Clone, Copy)]
pub struct Table {
    pub tasks: usize,
    pub queues: usize,
    pub period: [u64; Plan::TASKS],
    pub deadline: [u64; Plan::TASKS],
    pub priority: [u8; Plan::TASKS],
    pub receiver: [usize; Plan::QUEUES],
    // task i sends into queue q: entry q * TASKS + i
    pub sends: [bool; Plan::CELLS],
}

// The answer, and the table: that of all zeros where there is none (priorities_low and unsound_zeros say so of any text).
#[derive(Clone, Copy)]
pub struct Read {
    pub answer: Result<(), Problem>,
    pub table: Table,
}

// The rule of a fault's number: of a number that is no rule's, the nearest one's.
#[tactic(auto, unfolding(crate::specs::Findings::rule_of))]
pub fn rule_of(number: usize) -> Rule
    ensures { result ≡ rule_of number }
{
    match number {
        0..=20 => Rule::Unfit,
        21 => Rule::Unknown,
        22 => Rule::NoTime,
        23 => Rule::TooDeep,
        _ => Rule::Twice,
    }
}

// The table of all zeros.
pub fn no_table() -> Table
    ensures { result ≡ no_table }
{
    Table {
        tasks: 0,
        queues: 0,
        period: [0; Plan::TASKS],
        deadline: [0; Plan::TASKS],
        priority: [0; Plan::TASKS],
        receiver: [0; Plan::QUEUES],
        sends: [false; Plan::CELLS],
    }
}
