// The library's functions on tables, plans, states and memory in plain text, good and damaged ones. What the library answers is
// printed, so that it can be compared with what the independent program reckons for the same text. Nothing here decides: the answers
// are the library's, and all that is proved of this program is that it is safe and ends. second/calls.rs lists the commands.
#![tactic(auto)]

mod run; // run.rt: the lines on a state and the memory
mod table; // table.rt: the lines on a table and its plan
mod text; // text.rt: words and numbers

use plan::Plan;
use run::{change_run, fresh_run};
use std::io::Stdout;
use table::{change_plan, change_table};
use text::Line;

// The longest text that is read; what is longer is cut.
const TEXT: usize = 131_072;

// The most memory that is lent.
const BUFFER: usize = 65_536;

// Plays each line of the text that has its end. `memory LENGTH BYTE` asks for so many bytes of the buffer to be lent, all of them BYTE.
fn play(stdout: Stdout, text: &[u8], buffer: &mut [u8]) {
    let mut table = Plan::zeros();
    let mut plan = Plan::zeros();
    let mut run = fresh_run();
    let mut lent = 0;
    for piece in text.split_inclusive(|b| *b == b'\n') {
        let Some((&b'\n', bytes)) = piece.split_last() else {
            continue;
        };
        let line = Line(bytes);
        if line.word() == b'm' {
            buffer.fill((line.number(1) % 256) as u8);
            let asked = line.number(0) as usize;
            if asked <= buffer.len() {
                lent = asked;
            }
        }
        change_table(&mut table, line);
        change_plan(stdout, &mut plan, &table, line);
        change_run(stdout, &mut run, &plan, line, &mut buffer[..lent]);
    }
}

fn main(rt: HostRuntime) {
    let mut text = [0u8; TEXT];
    let mut buffer = [0u8; BUFFER];
    let text = blocks::read_text(rt.stdin(), &mut text);
    play(rt.stdout(), text, &mut buffer);
}
