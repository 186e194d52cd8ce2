// Receive: the running call's, on a plan that is tested first and on the state's column of reading places.
ghost use Rattle.mailbox.specs.Calls.{ReceiveGives};

use crate::{Receiving, State};
use calendar::Tick;
use judge::Tested;
use plan::Plan;

impl State {
    // Reads the next number of the receiver's running job.
    pub fn receive(mut self, plan: Plan, memory: &[u8], queue: usize, at: Tick) -> Receiving
        ensures { ReceiveGives self plan memory.now queue at.0 result }
    {
        let tested = Tested {
            sound: soundness::sound(&plan),
            plan: &plan,
        };
        let looked = receiving::receive_on(
            tested,
            memory,
            &mut self.tick,
            &mut self.reading,
            queue,
            at,
            None,
        );
        Receiving {
            answer: looked.answer,
            state: self,
        }
    }
}
