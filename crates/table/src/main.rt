// From an AADL text to the console's lines: standard input is the text, standard output the lines of its table or the line that refuses
// it, and standard error the refusal in words. No contract can say what is read or written: all that matters is proved in `imports`,
// `listing` and `report`. Where more comes than a text may have, one byte of it is read, which tells; the rest is left.
#![tactic(auto)]

use blocks::Stream;
use findings::Table;
use frames::answers::write_refusal;
use listing::lines::{LINES_ROOM, write_table, write_unread};
use plan::Plan;
use plan::refusal::Refusal;
use reader::{MOST_BYTES, MOST_ROWS, ROWS_ROOM, TREE_ROOM};
use report::{WORDS_ROOM, say_refused, say_unread};
use std::io::{Stderr, Stdout};
use tableplans::{Import, Problem};

const TEXT_ROOM: usize = MOST_BYTES + 1;

fn print_table(stdout: Stdout, plan: &Plan) {
    let mut out = [0u8; LINES_ROOM];
    let n = write_table(&mut out, plan);
    Stream::open().write_answers(stdout, &out[..n]);
}

// What the reader refuses.
fn print_unread(stdout: Stdout, stderr: Stderr, text: &[u8], refusal: findings::Refusal) {
    let mut out = [0u8; LINES_ROOM];
    let n = write_unread(&mut out, refusal);
    Stream::open().write_answers(stdout, &out[..n]);
    let mut words = [0u8; WORDS_ROOM];
    let m = say_unread(&mut words, text, refusal);
    blocks::write_words(stderr, &words[..m]);
}

// What planning refuses.
fn print_refused(stdout: Stdout, stderr: Stderr, table: &Table, refusal: Refusal) {
    let mut out = [0u8; LINES_ROOM];
    let n = write_refusal(&mut out, refusal);
    Stream::open().write_answers(stdout, &out[..n]);
    let mut words = [0u8; WORDS_ROOM];
    let m = say_refused(&mut words, table, refusal);
    blocks::write_words(stderr, &words[..m]);
}

fn print(stdout: Stdout, stderr: Stderr, text: &[u8], import: &Import) {
    match import.answer {
        Ok(()) => print_table(stdout, &import.plan),
        Err(Problem::TextRefused(refusal)) => print_unread(stdout, stderr, text, refusal),
        Err(Problem::TableRefused(refusal)) => {
            print_refused(stdout, stderr, &import.table, refusal)
        }
        Err(Problem::NoRoom) => blocks::write_words(stderr, b"the memory is too short\n"),
    }
}

fn main(rt: HostRuntime) {
    let mut text = [0u8; TEXT_ROOM];
    let mut plain = [0u8; MOST_BYTES];
    let mut rows = [0usize; ROWS_ROOM];
    let mut declared = [0u32; TREE_ROOM];
    let mut connected = [0u32; TREE_ROOM];
    let mut queued = [0u32; TREE_ROOM];
    let mut types = [0u32; MOST_ROWS];
    let text = blocks::read_text(rt.stdin(), &mut text);
    let import = imports::plan_text(
        text,
        &mut plain,
        &mut rows,
        &mut declared,
        &mut connected,
        &mut queued,
        &mut types,
    );
    print(rt.stdout(), rt.stderr(), text, &import);
}
