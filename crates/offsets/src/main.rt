// Reads the bytes of a MIDI cable on standard input, to the end; then prints each channel's number and its pitch offset in hundredths of a cent,
// or `-` for a channel with no role.
#![tactic(auto)]

use byte_call::step_all;
use receiving_end::end::End;
use std::io;
use std::io::Read;

// The end after all bytes of the input. A proved loop has to end, and nothing says that the input does: it counts its reads, to a number that no run uses up.
fn listen_to_the_end(input: &mut impl Read) -> io::Result<End> {
    let mut end = End::new();
    let mut text = [0u8; 4096];
    for _ in 0..u64::MAX {
        match input.read(&mut text)? {
            0 => break,
            n => end = step_all(end, &text[..n]),
        }
    }
    Ok(end)
}

fn print_offset(rt: &impl Print, offset: Option<i32>) -> io::Result<()> {
    match offset {
        Some(z) => print!(rt; "{z}"),
        None => print!(rt; "-"),
    }
}

fn print_channel(rt: &impl Print, end: End, channel: u8) -> io::Result<()> {
    print!(rt; "{channel} ")?;
    print_offset(rt, end.pitch_offset(channel))?;
    println!(rt; "")
}

fn print_channels(rt: &impl Print, end: End) {
    for channel in 0..16u8 {
        let _ = print_channel(rt, end, channel);
    }
}

fn main(rt: HostRuntime) {
    match listen_to_the_end(&mut rt.stdin()) {
        Ok(end) => print_channels(&rt, end),
        Err(_) => {
            let _ = eprintln!(rt; "offsets: standard input cannot be read");
        }
    }
}
