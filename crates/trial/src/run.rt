// The lines on a state and the lent memory: the running calls, the view, and digests of what the calls have made of both. A run is a
// state and the answer of the last receive, which the views after it are of.
use crate::text::{Line, say, say_refused};
use calendar::{Number, Slot, Tick};
use mailbox::{Received, Receiving, State};
use plan::Plan;
use std::array;
use std::io::Stdout;

// The longest payload and filler that a line can ask for; a length counts modulo one more.
const MOST_BYTES: usize = 64;

const PRIME: u64 = 1_000_003;

pub fn fresh_run() -> Receiving {
    Receiving {
        answer: Received::Empty,
        state: State::fresh(),
    }
}

fn start(stdout: Stdout, plan: &Plan, memory: &mut [u8]) -> State {
    let starting = State::start(*plan, memory);
    match starting.answer {
        Ok(()) => {
            let _ = println!(stdout; "ready");
        }
        Err(refusal) => say_refused(stdout, refusal),
    }
    starting.state
}

// The send of a line `send Q I T LEN FIRST`: the payload's bytes count up from the first one.
fn send(stdout: Stdout, before: State, plan: &Plan, line: Line, memory: &mut [u8]) -> State {
    let queue = line.number(0) as usize;
    let task = line.number(1) as usize;
    let at = Tick(line.number(2));
    let length = line.number(3) as usize % (MOST_BYTES + 1);
    let first = line.number(4);
    let bytes: [u8; MOST_BYTES] = array::from_fn(|k| (first.wrapping_add(k as u64) % 256) as u8);
    let sending = before.send(*plan, memory, queue, task, at, &bytes[..length]);
    match sending.answer {
        Ok(stored) => say(stdout, "stored ", stored.number.0, stored.slot.0 as u64),
        Err(refusal) => say_refused(stdout, refusal),
    }
    sending.state
}

// The receive of a line `receive Q T`.
fn receive(stdout: Stdout, before: State, plan: &Plan, line: Line, memory: &[u8]) -> Receiving {
    let queue = line.number(0) as usize;
    let at = Tick(line.number(1));
    let receiving = before.receive(*plan, memory, queue, at);
    match receiving.answer {
        Received::Message(number, slot) => say(stdout, "message ", number.0, slot.0 as u64),
        Received::Gap(number, task) => say(stdout, "gap ", number.0, task as u64),
        Received::Empty => {
            let _ = println!(stdout; "empty");
        }
        Received::Refused(refusal) => say_refused(stdout, refusal),
    }
    receiving
}

// The view of a line `view LEN BYTE`, in hexadecimal.
fn say_view(stdout: Stdout, answer: Received, line: Line, memory: &[u8]) {
    let filler = [(line.number(1) % 256) as u8; MOST_BYTES];
    let asked = line.number(0) as usize % (MOST_BYTES + 1);
    let bytes = view::view(answer, memory, &filler[..asked]);
    if bytes.is_empty() {
        let _ = println!(stdout; "none");
        return;
    }
    let _ = print!(stdout; "bytes ");
    for byte in bytes {
        let _ = print!(stdout; "{byte:02x}");
    }
    let _ = println!(stdout);
}

// A digest is the sum of the values, each times its place counted from 1, modulo a prime: a change anywhere shows.
fn added(sum: u64, numbered: (usize, u64)) -> u64 {
    let (place, value) = numbered;
    let weight = (place as u64 % PRIME + 1) % PRIME;
    (sum % PRIME + weight * (value % PRIME) % PRIME) % PRIME
}

// The state's values in a row are the tick, what was sent, where reading stands.
fn say_digest(stdout: Stdout, state: &State, memory: &[u8]) {
    let read = state.sent.iter().chain(&state.reading).copied().enumerate();
    let of_state = read.fold(
        added(0, (0, state.tick.0)),
        |sum, (k, value)| added(sum, (k + 1, value)),
    );
    let of_memory = memory
        .iter()
        .map(|byte| u64::from(*byte))
        .enumerate()
        .fold(0, added);
    let _ = print!(stdout; "state {of_state}");
    say(stdout, " memory ", memory.len() as u64, of_memory);
}

// A line `force FIELD VALUE` or `force FIELD INDEX VALUE`. An index counts modulo the field's length.
fn force(state: &mut State, line: Line) {
    let first = line.number(0);
    let i = first as usize;
    let value = line.number(1);
    match line.field() {
        b't' => state.tick = Tick(first),
        b's' => state.sent[i % Plan::CELLS] = value,
        b'r' => state.reading[i % Plan::QUEUES] = value,
        _ => {}
    }
}

// What a line makes of the run. A line `keep NUMBER SLOT` puts a message in the place of the last answer.
pub fn change_run(stdout: Stdout, run: &mut Receiving, plan: &Plan, line: Line, memory: &mut [u8]) {
    match line.word() {
        b'i' => run.state = start(stdout, plan, memory),
        b's' => run.state = send(stdout, run.state, plan, line, memory),
        b'r' => *run = receive(stdout, run.state, plan, line, memory),
        b'k' => run.answer = Received::Message(
            Number(line.number(0)),
            Slot(line.number(1) as usize),
        ),
        b'f' => force(&mut run.state, line),
        b'v' => say_view(stdout, run.answer, line, memory),
        b'd' => say_digest(stdout, &run.state, memory),
        _ => {}
    }
}
