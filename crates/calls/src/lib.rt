// Frames 04 and 05: a send or a receive, and the line that tells its answer. The plan and the state are lent, so that a caller keeps its
// desk where it lies; whether the plan is sound is the caller's to say.
#![tactic(auto)]

ghost use Rattle.std.specs.Prelude.{◌≡◌, ◌≤◌};
ghost use Rattle.common.specs.Words.{true, length};
ghost use Rattle.plan.specs.Rules.{sound_plan};
ghost use Rattle.window.specs.Window.{Remembers};
ghost use Rattle.frames.specs.Answers.{longest_answer};
ghost use Rattle.frames.specs.Writing.{Written};
ghost use Rattle.calls.specs.CallLines.{sent_bytes, received_bytes, send_call, receive_call, line_call, is_call};
ghost use Rattle.calls.specs.Leaves.{Leaves};

use calendar::Tick;
use frames::frame::Frame;
use judge::Tested;
use mailbox::{Received, State, Stored};
use plan::Plan;
use plan::refusal::Refusal;
use running::Remembered;

// How many bytes of the buffer a call's line has, and the window to remember for the next call.
#[derive(Drop)]
pub struct Called {
    pub written: usize,
    pub remembered: Option<Remembered>,
}

// Whether a frame leaves the table alone: 04, 05, and one that means nothing.
pub fn is_call(frame: Frame) -> bool
    ensures { result ≡ is_call frame }
{
    match frame {
        Frame::Task(_, _, _) | Frame::Queue(_, _) | Frame::Go => false,
        Frame::Send(_, _, _) | Frame::Receive(_, _) | Frame::Bad => true,
    }
}

fn write_sent(out: &mut [u8], answer: Result<Stored, Refusal>) -> usize
    requires { longest_answer ≤ length out.old }
    ensures { Written (sent_bytes answer) out.old result out.new }
{
    match answer {
        Ok(stored) => frames::answers::write_stored(out, stored.number, stored.slot),
        Err(refusal) => frames::answers::write_refusal(out, refusal),
    }
}

// Document 01 has the console take the answer's kinds by `if let`.
fn write_received(out: &mut [u8], memory: &[u8], answer: Received) -> usize
    requires { longest_answer ≤ length out.old }
    ensures { Written (received_bytes memory.now answer) out.old result out.new }
{
    if let Received::Message(number, _) = answer {
        let filler = [0; Plan::PAYLOAD_BYTES];
        return frames::answers::write_message(out, number, view::view(answer, memory, &filler));
    }
    if let Received::Gap(number, sender) = answer {
        return frames::answers::write_gap(out, number, sender);
    }
    if let Received::Refused(refusal) = answer {
        return frames::answers::write_refusal(out, refusal);
    }
    frames::answers::write_empty(out)
}

fn send_line(
    tested: Tested,
    state: &mut State,
    memory: &mut [u8],
    queue: usize,
    task: usize,
    at: Tick,
    payload: &[u8],
    out: &mut [u8],
) -> usize
    requires { longest_answer ≤ length out.old }
    ensures { Leaves (send_call tested.entry.plan.now state.old memory.old queue task at payload.now) out.old state.new result memory.new out.new }
{
    let answer = sending::send_on(
        tested,
        memory,
        &mut state.tick,
        &mut state.sent,
        queue,
        task,
        at,
        payload,
    );
    write_sent(out, answer)
}

fn receive_line(
    tested: Tested,
    state: &mut State,
    memory: &[u8],
    queue: usize,
    at: Tick,
    out: &mut [u8],
    remembered: Option<Remembered>,
) -> Called
    requires { (longest_answer ≤ length out.old) × Remembers tested.plan.now remembered }
    ensures { Leaves (receive_call tested.entry.plan.now state.old memory.now queue at) out.old state.new result.written memory.now out.new
        × Remembers tested.entry.plan.now result.remembered }
{
    let looked = receiving::receive_on(
        tested,
        memory,
        &mut state.tick,
        &mut state.reading,
        queue,
        at,
        remembered,
    );
    Called {
        written: write_received(out, memory, looked.answer),
        remembered: looked.remembered,
    }
}

// A call's line: `runs` says whether a plan was started, `sound` whether it is sound.
pub fn call_line(
    runs: bool,
    sound: bool,
    plan: &Plan,
    state: &mut State,
    memory: &mut [u8],
    frame: Frame,
    payload: &[u8],
    out: &mut [u8],
    remembered: Option<Remembered>,
) -> Called
    requires { (runs ≡ true → sound ≡ sound_plan plan.now) × (longest_answer ≤ length out.old) × Remembers plan.now remembered }
    ensures { Leaves (line_call runs plan.now state.old memory.old payload.now frame) out.old state.new result.written memory.new out.new
        × Remembers plan.now result.remembered }
{
    if !runs {
        return Called {
            written: frames::answers::write_bad(out),
            remembered,
        };
    }
    let tested = Tested { plan, sound };
    match frame {
        Frame::Send(queue, task, at) => Called {
            written: send_line(tested, state, memory, queue, task, at, payload, out),
            remembered,
        },
        Frame::Receive(queue, at) => {
            receive_line(tested, state, memory, queue, at, out, remembered)
        }
        _ => Called {
            written: frames::answers::write_bad(out),
            remembered,
        },
    }
}
