// Where a message lies: slot n mod L within its queue, and the queue's place before it.
ghost use Rattle.std.specs.Prelude.{◌≡◌, ◌+◌, ◌^◌, ◌<◌, ◌≤◌};
ghost use Rattle.calendar.specs.Calendar.{slot};
ghost use Rattle.slots.specs.Slots.{slot_of, slot_from};

use calendar::{Number, Slot};

// The slot within a queue of so many slots.
pub fn slot_in(size: usize, number: Number) -> Slot
    requires { 1 ≤ size }
    ensures { result ≡ slot (slot_of size number.0) }
{
    Slot((number.0 % size as u64) as usize)
}

// The slot from the start of memory.
pub fn slot_for(place: usize, size: usize, number: Number) -> Slot
    requires { (1 ≤ size) × (place + size < 2 ^ 64) }
    ensures { result ≡ slot (slot_from place size number.0) }
{
    let within = slot_in(size, number);
    Slot(place + within.0)
}
