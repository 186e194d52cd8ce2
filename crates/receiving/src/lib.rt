// Receive: a look at the receiver's next message, which changes nothing, and then a step on from the answer, which is the crate `stepping`.
// The plan is lent, as to a send, and of a state its tick and the one column that is changed.
#![tactic(auto)]

ghost use Rattle.std.specs.Prelude.{◌≡◌, ◌<◌, ◌≤◌};
ghost use Rattle.common.specs.Words.{get_or};
ghost use Rattle.model.specs.Model.{up_to};
ghost use Rattle.plan.specs.Limits.{last_tick};
ghost use Rattle.plan.specs.Plan.{queue_at, Usable};
ghost use Rattle.judge.specs.Taken.{Ground};
ghost use Rattle.window.specs.Window.{plan_window, Remembers};
ghost use Rattle.running.specs.Calls.{found, look, ReceiveLeaves};

use calendar::{Number, Tick};
use judge::Tested;
use plan::Plan;
use running::{Looked, Received, Remembered};
use window::WindowEnds;

// The window of the receiver's running job: the one that is remembered, where it is the same job's.
fn running_window(plan: &Plan, queue: usize, at: Tick, remembered: Option<Remembered>) -> Remembered
    requires { Usable plan.now queue × (at.0 ≤ last_tick) × Remembers plan.now remembered }
    ensures { result ≡ record { queue = queue; window = plan_window plan.now queue at.0 } }
{
    let row = plan.receiver[queue];
    window::window_for(plan, queue, plan.period[row], at, remembered)
}

// What is found under a number of a window: its message, where its slot holds it, and else a gap, which names the sender.
fn found(plan: &Plan, memory: &[u8], queue: usize, n: Number, window: WindowEnds) -> Received
    requires { Ground plan.now memory.now × (queue < plan.now.queues) × (window.high.0 ≤ last_tick)
        × (up_to (queue_at plan.now queue) window.low.0 < n.0) × (n.0 ≤ up_to (queue_at plan.now queue) window.high.0) }
    ensures { result ≡ found plan.now memory.now queue n.0 }
{
    let slot = slots::places::slot_for(plan.place[queue], plan.size[queue], n);
    if slots::number_in(memory, slot) == n {
        return Received::Message(n, slot);
    }
    let sender = window::sender_in(plan, queue, n, window.low, window.high);
    Received::Gap(n, sender)
}

// Answers as a receive does. `before` is the state's tick, and `reading` its column of reading places. A refusal is one of the four kinds of
// answer and goes back beside what was remembered, so it is no Err to pass on.
fn look_on(
    tested: Tested,
    memory: &[u8],
    queue: usize,
    at: Tick,
    before: Tick,
    reading: &[u64; Plan::QUEUES],
    remembered: Option<Remembered>,
) -> Looked
    requires { Remembers tested.plan.now remembered }
    ensures { (result.answer ≡ look before.0 (get_or reading.now queue 0) tested.entry.plan.now memory.now queue at.0)
        × Remembers tested.entry.plan.now result.remembered }
{
    if let Err(refusal) = judge::judge_receive(tested, memory, queue, at, before) {
        return Looked {
            answer: Received::Refused(refusal),
            remembered,
        };
    }
    let plan = tested.plan;
    let seen = running_window(plan, queue, at, remembered);
    let window = seen.window;
    let next = window::next_number(Number(reading[queue]), window.before);
    let answer = if window.end < next {
        Received::Empty
    } else {
        found(plan, memory, queue, next, window)
    };
    Looked {
        answer,
        remembered: Some(seen),
    }
}

// A receive: `latest` is the state's tick, and `reading` its column of reading places.
pub fn receive_on(
    tested: Tested,
    memory: &[u8],
    latest: &mut Tick,
    reading: &mut [u64; Plan::QUEUES],
    queue: usize,
    at: Tick,
    remembered: Option<Remembered>,
) -> Looked
    requires { Remembers tested.plan.now remembered }
    ensures { ReceiveLeaves latest.old.0 reading.old tested.entry.plan.now memory.now queue at.0 result.answer latest.new reading.new
        × Remembers tested.entry.plan.now result.remembered }
{
    let looked = look_on(tested, memory, queue, at, *latest, reading, remembered);
    stepping::step_on(latest, reading, queue, at, looked.answer);
    looked
}
