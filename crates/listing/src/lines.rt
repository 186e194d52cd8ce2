// The lines of digits: the console's frames of a table, and a refusal that has a place. Where they write, they require room.
ghost use Rattle.std.specs.Prelude.{◌≡◌, ◌≤◌, ◌<◌};
ghost use Rattle.common.specs.Words.{cond, length, sets};
ghost use Rattle.plan.specs.Limits.{task_limit, queue_limit};
ghost use Rattle.frames.specs.Writing.{Written};
ghost use Rattle.listing.specs.Lines.{lines_room, mask_of, sender};
ghost use Rattle.listing.specs.Lines.{table_lines, unread_bytes};

use crate::writer::Writer;
use findings::Refusal;
use plan::Plan;

// Enough for the lines of any table.
pub const LINES_ROOM: usize = 288;

// What a task adds to the mask of a queue.
fn bit_of(sends: bool, bit: u64) -> u64
    ensures { result ≡ cond sends bit 0 }
{
    if sends { bit } else { 0 }
}

// The mask of a queue's senders: bit i for task i. Document 01 keeps the square of senders flat, so the loop is over its rows.
fn mask_of(sends: &[bool; Plan::CELLS], q: usize) -> u64
    requires { q < queue_limit }
    ensures { result ≡ mask_of (sender sends.now q) task_limit }
{
    let mut mask: u64 = 0;
    let mut bit: u64 = 1;
    for i in 0..Plan::TASKS {
        mask += bit_of(sends[q * Plan::TASKS + i], bit);
        bit *= 2;
    }
    mask
}

// The lines 01 for each thread, 02 for each queue, then 03, and how many bytes they have: a slice of them would keep the memory lent, and
// the clause on all of it could not be said.
pub fn write_table(out: &mut [u8], plan: &Plan) -> usize
    requires { lines_room ≤ length out.old }
    ensures { (result ≡ length (table_lines plan.now)) × (result ≤ lines_room)
        × (out.new ≡ sets out.old 0 (table_lines plan.now)) }
{
    let mut lines = Writer { out, at: 0 };
    for i in 0..plan.tasks.min(Plan::TASKS) {
        lines.task(plan.period[i], plan.deadline[i], plan.priority[i]);
    }
    for q in 0..plan.queues.min(Plan::QUEUES) {
        lines.queue(plan.receiver[q], mask_of(&plan.sends, q));
    }
    lines.go();
    lines.at
}

// 7f, number (1 byte), place (4), and how many bytes the line has.
pub fn write_unread(out: &mut [u8], refusal: Refusal) -> usize
    requires { lines_room ≤ length out.old }
    ensures { (result ≤ lines_room) × Written (unread_bytes refusal) out.old result out.new }
{
    let mut line = Writer { out, at: 0 };
    line.number(1, 0x7f);
    line.number(1, u64::from(u8::from(refusal.rule)));
    line.number(4, refusal.place as u64);
    line.end_line();
    line.at
}
