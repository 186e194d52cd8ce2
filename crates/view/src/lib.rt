// The view of a receive answer: 24 bytes without copying. It knows no plan and compares no number; the answer says all.
#![tactic(auto)]

ghost use Rattle.view.specs.Unique.{ViewGives};

use plan::Plan;
use running::Received;

// A message's payload bytes in the memory, the filler's bytes for a gap, and else the empty part at the filler's start.
pub fn view<'a>(answer: Received, memory: &'a [u8], filler: &'a [u8]) -> &'a [u8]
    ensures { ViewGives answer memory.entry filler.entry result }
{
    if filler.len() != Plan::PAYLOAD_BYTES {
        return &filler[..0];
    }
    if let Received::Message(_, slot) = answer {
        let s = slot.0;
        // by division, since the slot may be any number
        if memory.len() / Plan::SLOT_BYTES <= s {
            return &filler[..0];
        }
        let at = s * Plan::SLOT_BYTES;
        return &memory[at + 8..at + Plan::SLOT_BYTES];
    }
    if let Received::Gap(_, _) = answer {
        return filler;
    }
    &filler[..0]
}
