// A plan: the task table, which task sends into which queue, and where each queue's slots lie in memory.
// It is plain data. It can be stored, copied and handed in altered, so every call tests it first (rule 7, the crate `soundness`).
#![tactic(auto)]

pub mod refusal; // refusal.rt: the rules that a call can break, and the refusal that it is answered with

ghost use Rattle.std.specs.Prelude.{◌≡◌};
ghost use Rattle.common.specs.Words.{true};
ghost use Rattle.plan.specs.Limits.{task_limit, queue_limit, cell_limit, longest_period, longest_hyperperiod, most_messages, most_slots, last_tick};
ghost use Rattle.plan.specs.Limits.{payload_bytes, slot_bytes};
ghost use Rattle.plan.specs.Plan.{zeros};

#[derive(Clone, Copy)]
pub struct Plan {
    pub tasks: usize,
    pub queues: usize,
    // of each task
    pub period: [u64; Plan::TASKS],
    pub deadline: [u64; Plan::TASKS],
    pub priority: [u8; Plan::TASKS],
    // of each queue
    pub receiver: [usize; Plan::QUEUES],
    // task i sends into queue q: entry q * TASKS + i
    pub sends: [bool; Plan::CELLS],
    // of each queue: how many slots, and the first one's place from the start of memory
    pub size: [usize; Plan::QUEUES],
    pub place: [usize; Plan::QUEUES],
}

impl Plan {
    pub const TASKS: usize = 16;

    pub const QUEUES: usize = 8;

    pub const CELLS: usize = Plan::QUEUES * Plan::TASKS;

    pub const LONGEST_PERIOD: u64 = 60_000;

    pub const LONGEST_HYPERPERIOD: u64 = 10_000_000;

    pub const MOST_MESSAGES: u64 = 4_096;

    pub const MOST_SLOTS: usize = 1_024;

    pub const LAST_TICK: u64 = 1_000_000_000_000;

    pub const PAYLOAD_BYTES: usize = 24;

    pub const SLOT_BYTES: usize = 8 + Plan::PAYLOAD_BYTES;

    // The plan of all zeros, which every call refuses.
    pub fn zeros() -> Plan
        ensures { result ≡ zeros }
    {
        Plan {
            tasks: 0,
            queues: 0,
            period: [0; Plan::TASKS],
            deadline: [0; Plan::TASKS],
            priority: [0; Plan::TASKS],
            receiver: [0; Plan::QUEUES],
            sends: [false; Plan::CELLS],
            size: [0; Plan::QUEUES],
            place: [0; Plan::QUEUES],
        }
    }
}

// The limits that the definitions name are those of the code.
pub fn limits_agree() -> bool
    ensures answer { result ≡ true }
    ensures tasks { Plan.TASKS ≡ task_limit }
    ensures queues { Plan.QUEUES ≡ queue_limit }
    ensures cells { Plan.CELLS ≡ cell_limit }
    ensures longest_period { Plan.LONGEST_PERIOD ≡ longest_period }
    ensures longest_hyperperiod { Plan.LONGEST_HYPERPERIOD ≡ longest_hyperperiod }
    ensures most_messages { Plan.MOST_MESSAGES ≡ most_messages }
    ensures most_slots { Plan.MOST_SLOTS ≡ most_slots }
    ensures last_tick { Plan.LAST_TICK ≡ last_tick }
    ensures payload_bytes { Plan.PAYLOAD_BYTES ≡ payload_bytes }
    ensures slot_bytes { Plan.SLOT_BYTES ≡ slot_bytes }
{
    true
}
