// Planning's refusals in words: what the table has, and what planning wants of it. Rows are counted from 0, as the console counts them.
ghost use Rattle.std.specs.Prelude.{◌≤◌};
ghost use Rattle.common.specs.Words.{length};

use crate::put;
use findings::Table;
use plan::Plan;
use plan::refusal::{Refusal, Rule};
use std::fmt;
use std::fmt::Display;

// Why a table is refused.
#[derive(Clone, Copy)]
struct Unplanned<'a> {
    table: &'a Table,
    refusal: Refusal,
}

// What a thread's times are; of a row that no table has, the row alone.
#[derive(Clone, Copy)]
struct Times<'a> {
    table: &'a Table,
    row: usize,
}

impl Display for Times<'_> {
    fn fmt<W: fmt::Write>(&self, f: &mut fmt::Formatter<W>) -> fmt::Result {
        let row = self.row;
        if Plan::TASKS <= row {
            return write!(f, "thread {row}");
        }
        let period = self.table.period[row];
        let deadline = self.table.deadline[row];
        write!(
            f,
            "thread {row}: found Period {period} and Deadline {deadline}, "
        )?;
        f.write_str("expected a Period of 1 to 60000 ms and a Deadline of 1 ms to the Period")
    }
}

impl Unplanned<'_> {
    // What is wrong with the table.
    fn wrong<W: fmt::Write>(&self, f: &mut fmt::Formatter<W>) -> fmt::Result {
        let table = self.table;
        let row = self.refusal.row;
        match self.refusal.rule {
            Rule::TaskOrQueueCount => {
                let tasks = table.tasks;
                let queues = table.queues;
                write!(f, "found {tasks} threads and {queues} queues, ")?;
                f.write_str("expected 1 to 16 threads and 1 to 8 queues")
            }
            Rule::PeriodOrDeadline => write!(f, "{}", Times { table, row }),
            Rule::ReceiverOrSender => {
                write!(
                    f,
                    "queue {row}: expected a receiver and senders that are threads of the table"
                )
            }
            Rule::HyperperiodTooLong => {
                write!(
                    f,
                    "queue {row}: expected Periods with a common multiple of at most 10000000 ms"
                )
            }
            Rule::TooManySlots => f.write_str(
                "expected at most 1024 slots for all queues together",
            ),
            _ => write!(
                f,
                "queue {row}: expected at most 4096 messages until the Periods meet again"
            ),
        }
    }
}

impl Display for Unplanned<'_> {
    fn fmt<W: fmt::Write>(&self, f: &mut fmt::Formatter<W>) -> fmt::Result {
        f.write_str("no plan: ")?;
        self.wrong(f)?;
        let number = u8::from(self.refusal.rule);
        write!(f, " ({number})\n")
    }
}

// Why planning refuses a table: the line, and how many bytes it has.
pub fn say_refused(out: &mut [u8], table: &Table, refusal: Refusal) -> usize
    ensures { result ≤ length out.old }
{
    put(out, Unplanned { table, refusal })
}
