// Reads the bytes of a MIDI cable on standard input, to the end, and prints the two MIDI 2.0 words of each message that gives words, a line each;
// then, channels rising, those of each entry that is still pending.
#![tactic(auto)]

mod out;

use midi2_text::cable::{Cable, Heard};
use midi2_text::line::pair_line;
use out::Out;
use std::fmt;
use std::fmt::{Display, Formatter};
use std::io::Read;

// What failed.
#[derive(Clone, Copy, Debug)]
enum Failure {
    Read,
    Write,
}

impl Display for Failure {
    fn fmt<W: fmt::Write>(&self, f: &mut Formatter<W>) -> fmt::Result {
        match self {
            Failure::Read => f.write_str("standard input cannot be read"),
            Failure::Write => f.write_str("standard output cannot be written"),
        }
    }
}

// The cable after a byte or a flush, with its words written. None of a cable is declined: its words are those of messages, and its translator is as
// they leave it.
fn write_words(out: &mut Out, heard: Heard) -> Result<Cable, Failure> {
    if let Ok(Some(words)) = heard.reply {
        out.text(&pair_line(words[0], words[1]))?;
    }
    Ok(heard.cable)
}

fn hear_all(out: &mut Out, cable: Cable, bytes: &[u8]) -> Result<Cable, Failure> {
    let mut cable = cable;
    for byte in bytes {
        cable = write_words(out, cable.hear(*byte))?;
    }
    out.flush()?;
    Ok(cable)
}

fn flush_all(out: &mut Out, cable: Cable) -> Result<(), Failure> {
    let mut cable = cable;
    for channel in 0..16u8 {
        cable = write_words(out, cable.flush(channel))?;
    }
    out.flush()
}

// Reads once, and writes the words of what came; none at the end of input.
fn listen(input: &mut impl Read, out: &mut Out, cable: Cable) -> Result<Option<Cable>, Failure> {
    let mut text = [0u8; 4096];
    let n = input.read(&mut text).map_err(|_| Failure::Read)?;
    if n == 0 {
        return Ok(None);
    }
    let next = hear_all(out, cable, &text[..n])?;
    Ok(Some(next))
}

// A proved loop has to end, and nothing says that the input does: the loop counts its reads, up to a number that no run reaches.
fn translate(input: &mut impl Read, out: &mut Out) -> Result<(), Failure> {
    let mut cable = Cable::new();
    for _ in 0..u64::MAX {
        match listen(input, out, cable)? {
            Some(next) => cable = next,
            None => break,
        }
    }
    flush_all(out, cable)
}

fn main(rt: HostRuntime) {
    let mut out = Out::new(rt.stdout());
    if let Err(failure) = translate(&mut rt.stdin(), &mut out) {
        let _ = eprintln!(rt; "midi2: {failure}");
    }
}
