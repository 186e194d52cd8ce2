// The start of a run: a fresh state over cleared slots.
ghost use Rattle.std.specs.Prelude.{◌≡◌};
ghost use Rattle.mailbox.specs.Calls.{fresh, StartGives};

use crate::{Starting, State};
use calendar::Tick;
use plan::Plan;

impl State {
    // Nothing sent, nothing read, tick 0.
    pub fn fresh() -> State
        ensures { result ≡ fresh }
    {
        State {
            tick: Tick(0),
            sent: [0; Plan::CELLS],
            reading: [0; Plan::QUEUES],
        }
    }

    // Clears the plan's slots. A refused start gives the fresh state too, and touches no byte.
    pub fn start(plan: Plan, memory: &mut [u8]) -> Starting
        ensures { StartGives plan memory.old result memory.new }
    {
        Starting {
            answer: running::start::started(plan, memory),
            state: State::fresh(),
        }
    }
}
