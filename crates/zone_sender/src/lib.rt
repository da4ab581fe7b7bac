// The sensitivity messages of a whole zone (mpe.rs), written into a buffer.
#![tactic(auto)]

ghost use Rattle.std.specs.Prelude.{◌≡◌, ◌++◌, ◌+◌, ◌*◌, ◌<◌, ◌≤◌, length, drop};
ghost use Rattle.zone_sender.specs.Zone.{group_size, sensitivity_at_place, group_at, InRange, groups, zone_words, fill_reply, zone_reply, filled, written_read};
ghost use Rattle.zone_sender.specs.Claims.{WrittenInOrder, AnsweredByNeed};
ghost use Rattle.zone_sender.specs.declared.WriteError.TheVariants as write_error;

use mpe_layout::{MpeLayout, MpeZone};
use mpe_pitch::MpeSensitivity;
use mpe_sender::{ActiveZone, active_zone, sensitivity_allowed, sensitivity_messages};
use ump::reply::OutOfRange;

// What a call that writes into a buffer declines by.
#[derive(Clone, Copy, Debug, PartialEq, Eq)]
pub enum WriteError {
    OutOfRange,
    // The buffer has `got` elements, and the call writes `needed`.
    TooSmall { needed: usize, got: usize },
}

impl From<OutOfRange> for WriteError {
    ghost from_gives = { λ _ e. e ≡ write_error.OutOfRange };

    fn from(_refusal: OutOfRange) -> WriteError {
        WriteError::OutOfRange
    }
}

// Words of the messages that set one channel's sensitivity.
const GROUP_WORDS: usize = 4;

// The channels of a zone's groups, and their sensitivities.
#[derive(Clone, Copy)]
struct ZoneGroups {
    manager: u8,
    lowest: u8,
    at_manager: MpeSensitivity,
    at_member: MpeSensitivity,
}

impl ZoneGroups {
    // The sensitivity of the k-th channel.
    #[tactic(auto, unfolding(crate::specs::Zone::sensitivity_at_place))]
    fn sensitivity_at_place(self, k: u8) -> MpeSensitivity
        ensures { result ≡ sensitivity_at_place self.at_manager self.at_member k }
    {
        if k == 0 {
            self.at_manager
        } else {
            self.at_member
        }
    }

    // The sensitivity messages of the k-th channel: the manager, then the members rising.
    #[tactic(auto, unfolding(crate::specs::Zone::channel_at, crate::specs::Zone::sensitivity_at_place))]
    fn group(self, k: u8) -> [u32; GROUP_WORDS]
        requires { InRange self (k + 1) }
        ensures { result ≡ group_at self k }
    {
        let channel = if k == 0 {
            self.manager
        } else {
            self.lowest + (k - 1)
        };
        let sensitivity = self.sensitivity_at_place(k);
        sensitivity_messages(channel, sensitivity.semitones, sensitivity.cents).unwrap()
    }
}

// Writes the k-th group of a zone at the front of `out`.
fn write_at(out: &mut [u32], zone: ZoneGroups, k: u8)
    requires { (group_size ≤ length out.old) × InRange zone (k + 1) }
    ensures { out.new ≡ group_at zone k ++ drop group_size out.old }
{
    out[..GROUP_WORDS].copy_from_slice(&zone.group(k));
}

// Writes the first n groups of a zone, each where the last ended.
fn write_groups(out: &mut [u32], zone: ZoneGroups, n: u8)
    requires { (group_size * n ≤ length out.old) × InRange zone n }
    ensures { out.new ≡ groups zone n ++ drop (group_size * n) out.old }
{
    for k in 0..n {
        let at = GROUP_WORDS * k as usize;
        write_at(&mut out[at..], zone, k);
    }
}

// Writes the groups of a zone with so many members, if both sensitivities may be sent and the buffer holds the words.
#[tactic(auto, unfolding(crate::specs::Zone::fill_reply))]
fn fill(zone: ZoneGroups, members: u8, out: &mut [u32]) -> Result<usize, WriteError>
    requires { (zone.manager < 16) × (zone.lowest + members ≤ 16) }
    ensures reply { written_read result ≡ fill_reply members zone.at_manager zone.at_member (length out.old) }
    ensures buffer { out.new ≡ filled (fill_reply members zone.at_manager zone.at_member (length out.old)) (groups zone (members + 1)) out.old }
{
    if !sensitivity_allowed(zone.at_manager) || !sensitivity_allowed(zone.at_member) {
        return Err(WriteError::OutOfRange);
    }
    let n = members + 1;
    let needed = GROUP_WORDS * n as usize;
    let got = out.len();
    if got < needed {
        return Err(WriteError::TooSmall { needed, got });
    }
    write_groups(out, zone, n);
    Ok(needed)
}

// Writes the sensitivity of a zone's manager and of each member, four words a channel, members rising. An inactive zone, semitones above 96 or cents
// above 99 are out of range; then a short buffer is too small.
pub fn zone_sensitivity_messages(
    layout: MpeLayout,
    zone: MpeZone,
    manager: MpeSensitivity,
    member: MpeSensitivity,
    out: &mut [u32],
) -> Result<usize, WriteError>
    ensures reply { written_read result ≡ zone_reply layout zone manager member (length out.old) }
    ensures buffer { out.new ≡ filled (zone_reply layout zone manager member (length out.old)) (zone_words layout zone manager member) out.old }
    ensures order { WrittenInOrder layout zone manager member (written_read result) out.new }
    ensures need { AnsweredByNeed layout zone manager member (length out.old) (written_read result) }
{
    let ActiveZone { lowest, members } = active_zone(layout, zone)?;
    let groups = ZoneGroups {
        manager: zone.manager(),
        lowest,
        at_manager: manager,
        at_member: member,
    };
    fill(groups, members, out)
}
