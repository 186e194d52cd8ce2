// The console, line by line: one step takes a line, any bytes of any length, does what it says to the desk and to the lent memory, and
// writes at most one line.
#![tactic(auto)]

ghost use Rattle.std.specs.Prelude.{◌≡◌, ◌≤◌};
ghost use Rattle.common.specs.Words.{length, take};
ghost use Rattle.digits.specs.Hex.{most_bytes, decoded_into};
ghost use Rattle.frames.specs.Answers.{longest_answer};
ghost use Rattle.desk.specs.Desk.{frame_turn, framed_bytes, Takes};
ghost use Rattle.console.specs.Step.{StepGives};

use desk::Desk;
use digits::hex::BYTES;
use frames::frame::Frame;

// What a step comes to: how many bytes of the buffer were written, 0 where a line has no answer; none where the buffer was shorter than the
// longest answer. Then the line was not taken, and the desk is the one that was handed in.
#[derive(Drop)]
pub struct Replied {
    pub desk: Desk,
    pub reply: Option<usize>,
}

// No answer is longer.
const ROOM: usize = 64;

// The bytes of a line at the buffer's start, and how many they are: none where the line is no frame, as no bytes are none.
pub fn bytes_in(line: &[u8], bytes: &mut [u8]) -> usize
    requires { most_bytes ≤ length bytes.old }
    ensures { (result ≤ most_bytes) × (take result bytes.new ≡ framed_bytes line.now)
        × (bytes.new ≡ decoded_into line.now bytes.old) }
{
    digits::hex::decode(line, bytes).unwrap_or(0)
}

// A frame on a desk of any values: its plan is tested first (rule 7). Answers how many bytes were written.
fn act(desk: &mut Desk, memory: &mut [u8], frame: Frame, payload: &[u8], out: &mut [u8]) -> usize
    requires { longest_answer ≤ length out.old }
    ensures { Takes (frame_turn desk.old memory.old payload.now frame) out.old desk.new result memory.new out.new }
{
    if !calls::is_call(frame) {
        return desk::set_table(desk, memory, frame, out);
    }
    let sound = soundness::sound(&desk.plan);
    let runs = desk.running;
    let done = calls::call_line(
        runs,
        sound,
        &desk.plan,
        &mut desk.state,
        memory,
        frame,
        payload,
        out,
        None,
    );
    done.written
}

pub fn step(mut desk: Desk, memory: &mut [u8], line: &[u8], out: &mut [u8]) -> Replied
    ensures { StepGives desk memory.old line.now out.old result memory.new out.new }
{
    if out.len() < ROOM {
        return Replied { desk, reply: None };
    }
    let mut bytes = [0; BYTES];
    let n = bytes_in(line, &mut bytes);
    let framed = &bytes[..n];
    let written = act(
        &mut desk,
        memory,
        frames::frame::frame_of(framed),
        frames::frame::payload_in(framed),
        out,
    );
    Replied {
        desk,
        reply: Some(written),
    }
}
