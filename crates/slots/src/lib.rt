// Slots in lent memory: the message number as 8 bytes, high byte first, then the payload. The functions are inner ones: callers have
// tested that the slots lie inside the memory and that a payload is of full length.
#![tactic(auto)]

pub mod places; // places.rt: which slot is a message's

ghost use Rattle.std.specs.Prelude.{◌≡◌, ◌+◌, ◌^◌, ◌≤◌, ◌<◌};
ghost use Rattle.common.specs.Words.{length, sets};
ghost use Rattle.calendar.specs.Calendar.{message};
ghost use Rattle.plan.specs.Limits.{payload_bytes, slot_bytes};
ghost use Rattle.slots.specs.Slots.{bytes_of, slot_at, number_in, stored, cleared};

use calendar::{Number, Slot};
use plan::Plan;

// How many bytes of a slot hold its number.
const NUMBER_BYTES: usize = 8;

// Clears the first slots of the memory to zero bytes.
pub fn clear(memory: &mut [u8], slots: usize)
    requires { slot_at payload_bytes slots ≤ length memory.old }
    ensures { memory.new ≡ cleared payload_bytes memory.old slots }
{
    let end = slots * Plan::SLOT_BYTES;
    memory[..end].fill(0);
}

fn bytes_of(number: Number) -> [u8; NUMBER_BYTES]
    ensures { result ≡ bytes_of number.0 }
{
    number.0.to_be_bytes()
}

// Copies all of `from` into the memory from index `at` on.
fn copy(memory: &mut [u8], at: usize, from: &[u8])
    requires { at + length from.now ≤ length memory.old }
    ensures { memory.new ≡ sets memory.old at from.now }
{
    memory[at..at + from.len()].copy_from_slice(from);
}

// Puts a message into a slot, counted from the start of memory.
pub fn store(memory: &mut [u8], slot: Slot, number: Number, payload: &[u8])
    requires { (slot_at payload_bytes slot.0 + slot_bytes ≤ length memory.old) × (length payload.now ≡ payload_bytes) }
    ensures { memory.new ≡ stored payload_bytes memory.old slot.0 number.0 payload.now }
{
    let at = slot.0 * Plan::SLOT_BYTES;
    let digits = bytes_of(number);
    copy(memory, at, &digits);
    copy(memory, at + NUMBER_BYTES, payload);
}

// The number that a slot holds, 0 where it was never written.
pub fn number_in(memory: &[u8], slot: Slot) -> Number
    requires { slot_at payload_bytes slot.0 + slot_bytes ≤ length memory.now }
    ensures { result ≡ message (number_in payload_bytes memory.now slot.0) }
{
    let at = slot.0 * Plan::SLOT_BYTES;
    let bytes = [
        memory[at],
        memory[at + 1],
        memory[at + 2],
        memory[at + 3],
        memory[at + 4],
        memory[at + 5],
        memory[at + 6],
        memory[at + 7],
    ];
    Number(u64::from_be_bytes(bytes))
}
