// Reads the setup file of a course on standard input, and writes the restatement of its settings on standard output. A file that is refused gives one
// line on standard error, with the number of the refusal and its meaning, and no byte.
#![tactic(auto)]

ghost use Rattle.std.specs.Prelude.{◌≤◌, length};

use restatement::restatement_bytes;
use settings::Settings;
use setup_entry::SetupError;
use setup_reader::setup_settings;
use std::io::Read;

fn complain(rt: &impl Eprint, line: &str) {
    let _ = eprintln!(rt; "{line}");
}

// Reads until the buffer is full, the input ends or a read fails, and says how many bytes stand at the buffer's start. The loop is a `while`: the
// library's `read_exact` does not say how many bytes came before the end, and its `read_to_end` takes heap.
fn read_full(input: &mut impl Read, buffer: &mut [u8]) -> usize
    ensures { result ≤ length buffer.new }
{
    let mut done = 0;
    while done < buffer.len() {
        match input.read(&mut buffer[done..]) {
            Ok(0) | Err(_) => break,
            Ok(n) => done += n,
        }
    }
    done
}

// The restatement of settings that were read. They are legal and no restatement is longer than the buffer, so that it is always written.
fn restate(rt: &(impl Print + Eprint), settings: Settings) {
    let mut out = [0; 4096];
    let Ok(n) = restatement_bytes(settings, &mut out) else {
        return;
    };
    if !out
        .get(..n)
        .is_some_and(|written| rt.write_all(written).is_ok())
    {
        complain(rt, "restate: standard output cannot be written");
    }
}

// What is said of a file that is refused. The words stand here, and not at the error: of a text 4 means another thing.
fn refusal_of(error: SetupError) -> &'static str {
    match error {
        SetupError::OutOfRange => "restate: refused, 1: out of range",
        SetupError::WrongLength => {
            "restate: refused, 4: the file ends before or inside a section, or goes on after the label"
        }
        SetupError::OutOfOrder => {
            "restate: refused, 5: an entry out of rising order, or a channel at rest"
        }
    }
}

// A setup file has at most 129 bytes: what stands behind the buffer changes no reply. The second read tells an input that cannot be read from one that
// has ended.
fn main(rt: HostRuntime) {
    let mut input = rt.stdin();
    let mut file = [0u8; 4096];
    let mut rest = [0u8; 4096];
    let n = read_full(&mut input, &mut file);
    if input.read(&mut rest).is_err() {
        complain(&rt, "restate: standard input cannot be read");
        return;
    }
    match setup_settings(&file[..n]) {
        Ok(settings) => restate(&rt, settings),
        Err(error) => complain(&rt, refusal_of(error)),
    }
}
