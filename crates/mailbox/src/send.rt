// Send: the running call's, on a plan that is tested first and on the state's column of jobs.
ghost use Rattle.mailbox.specs.Calls.{SendGives};

use crate::{Sending, State};
use calendar::Tick;
use judge::Tested;
use plan::Plan;

impl State {
    // Stores the message of the task's running job.
    pub fn send(
        mut self,
        plan: Plan,
        memory: &mut [u8],
        queue: usize,
        task: usize,
        at: Tick,
        payload: &[u8],
    ) -> Sending
        ensures { SendGives self plan memory.old queue task at.0 payload.now result memory.new }
    {
        let tested = Tested {
            sound: soundness::sound(&plan),
            plan: &plan,
        };
        let answer = sending::send_on(
            tested,
            memory,
            &mut self.tick,
            &mut self.sent,
            queue,
            task,
            at,
            payload,
        );
        Sending {
            answer,
            state: self,
        }
    }
}
