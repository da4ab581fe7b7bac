// A new end, and a byte on a lent end. A reply is a number (docs/BENCHMARKS.md). `bench_lent_c` exports the two calls for a board's firmware.
#![tactic(auto)]

ghost use Rattle.std.specs.Prelude.{◌≡◌, ◌<◌, ◌^◌};
ghost use Rattle.receiving_end.specs.End.{new_end, step_reply, step_end};
ghost use Rattle.bench_lent.specs.Code.{zone_code, part_code, event_code, reply_code};

use lent_end::byte;
use mpe_event::MpeEvent;
use mpe_layout::MpeZone;
use receiving_end::end::{End, Reply};

fn zone_code(zone: MpeZone) -> u64
    ensures { (result ≡ zone_code zone) × (result < 2) }
{
    match zone {
        MpeZone::Lower => 0,
        MpeZone::Upper => 1,
    }
}

// A zone's manager or members.
fn part_code(zone: MpeZone, manager: bool) -> u64
    ensures { (result ≡ part_code zone manager) × (result < 4) }
{
    if manager {
        2 + zone_code(zone)
    } else {
        zone_code(zone)
    }
}

fn event_code(event: MpeEvent) -> u64
    ensures { (result ≡ event_code event) × (result < 2 ^ 19) }
{
    match event {
        MpeEvent::NoZone => 0,
        MpeEvent::Zone { zone, manager } => 1 + 8 * part_code(zone, manager),
        MpeEvent::Layout { reset } => 2 + 8 * reset as u64,
        MpeEvent::Sensitivity { zone, manager } => 3 + 8 * part_code(zone, manager),
        MpeEvent::Mode { zone } => 4 + 8 * zone_code(zone),
        MpeEvent::Ignored => 5,
    }
}

// A reply as one number.
pub fn reply_code(reply: Reply) -> u64
    ensures { result ≡ reply_code reply }
{
    match reply {
        Reply::Quiet => 0,
        Reply::Dropped => 1,
        Reply::RealTime(b) => 2 + 4 * b as u64,
        Reply::Message(word, event) => 3 + 4 * event_code(event) + 0x20_0000 * word as u64,
    }
}

// The end becomes a new one.
pub fn gurfemau_new(end: &mut End)
    ensures { end.new ≡ new_end }
{
    *end = End::new();
}

// The byte call on a lent end.
pub fn gurfemau_byte(end: &mut End, b: u8) -> u64
    ensures { (result ≡ reply_code (step_reply end.old b)) × (end.new ≡ step_end end.old b) }
{
    reply_code(byte(end, b))
}
