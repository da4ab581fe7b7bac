// Answers a trace: reads items from standard input, makes the call of each, and writes one answer line for each. What cannot be read ends the run
// with the line `?`. docs/REPLAY.md has the items.
#![tactic(auto)]

mod allocator_items;
mod answer;
mod arguments;
mod end_items;
mod item;
mod layout_items;
mod out;
mod parameter_items;
mod pitch_items;
mod receiver_items;
mod restatement_items;
mod run;
mod sender_items;
mod setup_items;
mod states;
mod tokens;
mod translation_items;
mod word_items;

use run::Run;
use std::io::{Read, Stdin};

// Reads once and answers the items that came whole: whether more is to be read. Keeping the loop out of it keeps the buffer out of the loop.
fn read_some(rt: &impl Eprint, mut input: Stdin, run: &mut Run) -> bool {
    let mut text = [0u8; 4096];
    match input.read(&mut text) {
        Err(_) => {
            let _ = eprintln!(rt; "replay: standard input cannot be read");
            false
        }
        Ok(0) => {
            run.end();
            false
        }
        Ok(n) => run.answer_all(&text[..n]),
    }
}

// A proved loop has to end, and nothing says that the input does: the loop counts its reads, up to a number that no run reaches.
fn main(rt: HostRuntime) {
    let mut run = Run::new(rt.stdout());
    for _ in 0..u64::MAX {
        if !read_some(&rt, rt.stdin(), &mut run) {
            break;
        }
    }
    if !run.finished() {
        let _ = eprintln!(&rt; "replay: standard output cannot be written");
    }
}
