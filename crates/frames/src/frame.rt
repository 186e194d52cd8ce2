// The frames that the console reads: a first byte that says which, and numbers of fixed widths behind it.
ghost use Rattle.std.specs.Prelude.{◌≡◌};
ghost use Rattle.common.specs.Words.{get_or};
ghost use Rattle.frames.specs.Frames.{task_length, task_in, queue_in, go_in, send_in, receive_in, frame_of, PayloadGives};

use calendar::Tick;
use digits::numbers::value_at;

// The payload of a send is not taken out: `payload_in` shows where it lies.
#[derive(Clone, Copy)]
pub enum Frame {
    Task(u64, u64, u8),
    Queue(usize, u64),
    Go,
    Send(usize, usize, Tick),
    Receive(usize, Tick),
    Bad,
}

const PAYLOAD: usize = 8;

// Five bytes, or six with a priority.
fn task_length(bytes: usize) -> bool
    ensures { result ≡ task_length bytes }
{
    bytes == 5 || bytes == 6
}

// The priority is the sixth byte, 0 where there is none.
fn priority_in(bytes: &[u8]) -> u8
    ensures { result ≡ get_or bytes.now 5 0 }
{
    bytes.get(5).copied().unwrap_or(0)
}

fn task_in(bytes: &[u8]) -> Frame
    ensures { result ≡ task_in bytes.now }
{
    if !task_length(bytes.len()) {
        return Frame::Bad;
    }
    let period = value_at(bytes, 1, 2);
    let deadline = value_at(bytes, 3, 2);
    Frame::Task(period, deadline, priority_in(bytes))
}

fn queue_in(bytes: &[u8]) -> Frame
    ensures { result ≡ queue_in bytes.now }
{
    if bytes.len() != 4 {
        return Frame::Bad;
    }
    Frame::Queue(value_at(bytes, 1, 1) as usize, value_at(bytes, 2, 2))
}

fn go_in(bytes: &[u8]) -> Frame
    ensures { result ≡ go_in bytes.now }
{
    if bytes.len() != 1 {
        return Frame::Bad;
    }
    Frame::Go
}

fn send_in(bytes: &[u8]) -> Frame
    ensures { result ≡ send_in bytes.now }
{
    if bytes.len() < PAYLOAD {
        return Frame::Bad;
    }
    let queue = value_at(bytes, 1, 1) as usize;
    let task = value_at(bytes, 2, 1) as usize;
    Frame::Send(queue, task, Tick(value_at(bytes, 3, 5)))
}

fn receive_in(bytes: &[u8]) -> Frame
    ensures { result ≡ receive_in bytes.now }
{
    if bytes.len() != 7 {
        return Frame::Bad;
    }
    let queue = value_at(bytes, 1, 1) as usize;
    Frame::Receive(queue, Tick(value_at(bytes, 2, 5)))
}

pub fn frame_of(bytes: &[u8]) -> Frame
    ensures { result ≡ frame_of bytes.now }
{
    if bytes.is_empty() {
        return Frame::Bad;
    }
    match bytes[0] {
        0x01 => task_in(bytes),
        0x02 => queue_in(bytes),
        0x03 => go_in(bytes),
        0x04 => send_in(bytes),
        0x05 => receive_in(bytes),
        _ => Frame::Bad,
    }
}

// The payload of a send's frame, none where the frame is too short for one.
pub fn payload_in(bytes: &[u8]) -> &[u8]
    ensures { PayloadGives bytes.entry result }
{
    if bytes.len() < PAYLOAD {
        return &bytes[..0];
    }
    &bytes[PAYLOAD..]
}
