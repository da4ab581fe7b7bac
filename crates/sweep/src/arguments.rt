// The program's arguments: a word, and pairs of numbers.
use mpe_pitch::MpeSensitivity;
use std::env::FillError;
use std::rt::Env;

// What an argument says.
#[derive(Clone, Copy)]
enum Argument {
    // `--remainder`
    Remainder,
    // 0 to 127
    Number(u8),
    Other,
}

// The number that digits say, if there are any and it is at most 127. Not by `parse`, which takes a `+` before them too.
fn number(text: &[u8]) -> Option<u8> {
    if text.is_empty() {
        return None;
    }
    let mut n: u8 = 0;
    for b in text {
        if !b.is_ascii_digit() {
            return None;
        }
        n = n.checked_mul(10)?.checked_add(*b - b'0')?;
    }
    if n <= 127 { Some(n) } else { None }
}

fn read(text: &[u8]) -> Argument {
    if text == b"--remainder".as_slice() {
        return Argument::Remainder;
    }
    number(text).map_or(Argument::Other, Argument::Number)
}

// Argument i, if there is one; one that is longer than a buffer says neither the word nor a number.
fn argument_at(rt: &impl Env, i: usize) -> Option<Argument> {
    let mut text = [0u8; 4096];
    match rt.arg(i, &mut text) {
        Ok(n) => Some(read(&text[..n])),
        Err(FillError::TooLong) => Some(Argument::Other),
        Err(FillError::NotPresent) => None,
    }
}

// Calls `sweep` for each pair of semitones and cents in turn, with whether `--remainder` stood before it, while it gives true.
// True where it always did, and each argument belongs to a pair or is the word, and the last belongs to a pair.
pub(crate) fn all_sweeps<F: Fn(MpeSensitivity, bool) -> bool>(rt: &impl Env, sweep: F) -> bool
    requires { F.IsAlwaysCallable sweep }
{
    let mut remainder = false;
    let mut ends_with_pair = false;
    let mut first = None;
    for i in 1..usize::MAX {
        match (first, argument_at(rt, i)) {
            (None, Some(Argument::Remainder)) => {
                remainder = true;
                ends_with_pair = false;
            }
            (None, Some(Argument::Number(semitones))) => first = Some(semitones),
            (Some(semitones), Some(Argument::Number(cents))) => {
                if !sweep(MpeSensitivity { semitones, cents }, remainder) {
                    return false;
                }
                first = None;
                ends_with_pair = true;
            }
            (None, None) => return ends_with_pair,
            _ => return false,
        }
    }
    false
}
