// The step on from what a look answers: what a receive leaves of a state's tick and of its column of reading places, as the crate `running`
// defines it. An inner function: an answer that names a number has to be one that can be stepped on (`CanStep`), as every look's is.
#![tactic(auto)]

ghost use Rattle.std.specs.Prelude.{◌≡◌};
ghost use Rattle.calendar.specs.Calendar.{tick};
ghost use Rattle.running.specs.Calls.{read_tick, read_places};
ghost use Rattle.running.specs.Stepping.{CanStep};

use calendar::Tick;
use plan::Plan;
use running::Received;

// Steps on from an answer: past the number of a message or a gap, and to the receive's tick, which an empty answer sets too. `latest` is the
// state's tick, and `reading` its column of reading places.
pub fn step_on(
    latest: &mut Tick,
    reading: &mut [u64; Plan::QUEUES],
    queue: usize,
    at: Tick,
    answer: Received,
)
    requires { CanStep queue answer }
    ensures { (latest.new ≡ tick (read_tick answer latest.old.0 at.0))
        × (reading.new ≡ read_places answer reading.old queue) }
{
    match answer {
        Received::Message(number, _) | Received::Gap(number, _) => {
            reading[queue] = number.0 + 1;
            *latest = at;
        }
        Received::Empty => *latest = at,
        Received::Refused(_) => {}
    }
}
