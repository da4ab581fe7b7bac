// Prints the roles of a layout, given by the member counts of Lower and of Upper: a line for each channel, with its number and its role,
// or `-` for a channel in no zone.
#![tactic(auto)]

use mpe_layout::{MpeLayout, MpeRole, MpeZone};
use std::env::FillError;
use std::rt::Env;

// One digit, or two from 10 to 15.
fn members(text: &[u8]) -> Option<u8> {
    match text {
        [units @ b'0'..=b'9'] => Some(*units - b'0'),
        [b'1', units @ b'0'..=b'5'] => Some(10 + (*units - b'0')),
        _ => None,
    }
}

// Argument i; one that is missing or longer than a buffer says no member count.
fn argument(rt: &impl Env, i: usize) -> Option<u8> {
    let mut text = [0u8; 4096];
    let n = rt.arg(i, &mut text).ok()?;
    members(&text[..n])
}

// There is an argument i, whatever it says.
fn is_given(rt: &impl Env, i: usize) -> bool {
    let mut text = [0u8; 1];
    !matches!(rt.arg(i, &mut text), Err(FillError::NotPresent))
}

// The member counts that the two arguments give, Lower's first; argument 0 is the program's name.
fn counts_asked(rt: &impl Env) -> Option<(u8, u8)> {
    if is_given(rt, 3) {
        return None;
    }
    Some((argument(rt, 1)?, argument(rt, 2)?))
}

fn zone_text(zone: MpeZone) -> &'static str {
    match zone {
        MpeZone::Lower => "Lower",
        MpeZone::Upper => "Upper",
    }
}

// The end of a line: `-`, or the zone and then the part, each a write of its own.
fn print_role(rt: &impl Print, role: MpeRole) -> bool {
    let (zone, part) = match role {
        MpeRole::NoZone => return println!(rt; "-").is_ok(),
        MpeRole::Manager(zone) => (zone_text(zone), "manager"),
        MpeRole::Member(zone) => (zone_text(zone), "member"),
    };
    print!(rt; "{zone} ").is_ok() && println!(rt; "{part}").is_ok()
}

// The line of a channel; false where it cannot be written. The layout is legal: it was made by `new`.
fn print_channel(rt: &impl Print, layout: MpeLayout, channel: u8) -> bool {
    layout.role(channel).is_ok_and(|role| print!(rt; "{channel} ").is_ok() && print_role(rt, role))
}

// Prints the roles of the layout that is asked for, or says why there are none.
fn print_roles(rt: &(impl Env + Print)) -> Result<(), &'static str> {
    let (lower, upper) = counts_asked(rt).ok_or(
        "the arguments are the member counts of Lower and of Upper, 0 to 15 each",
    )?;
    let layout = MpeLayout::new(lower, upper).map_err(
        |_| "two zones have at most 14 members in all",
    )?;
    if (0..16u8).all(|channel| print_channel(rt, layout, channel)) {
        Ok(())
    } else {
        Err("standard output cannot be written")
    }
}

fn main(rt: HostRuntime) {
    if let Err(refusal) = print_roles(&rt) {
        let _ = eprintln!(rt; "roles: {refusal}");
    }
}
