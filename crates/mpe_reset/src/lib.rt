// The channels that a change of layout resets (mpe.rs).
#![tactic(auto)]

ghost use Rattle.std.specs.Prelude.{◌≡◌, MatchResult, false};
ghost use Rattle.ump.specs.Outcome.{given, answered};
ghost use Rattle.ump.specs.Field.{mask_to};
ghost use Rattle.mpe_layout.specs.Layout.{legal, of_legal};
ghost use Rattle.mpe_reset.specs.Reset.{ZoneMask, announcement_mask, layout_mask, hit_by, named, NamesHit};

use mpe_layout::{MpeLayout, MpeZone};
use ump::reply::OutOfRange;

// The channels of a zone: from its manager to its last member, none in a zone without members.
fn zone_mask(layout: MpeLayout, zone: MpeZone) -> Result<u16, OutOfRange>
    ensures { MatchResult result (λ mask. ZoneMask layout zone mask) (λ _. legal layout ≡ false) }
{
    Ok(match (zone, layout.members(zone)?) {
        (_, 0) => 0,
        (MpeZone::Lower, members) => 0xFFFFu16 >> (15 - members),
        (MpeZone::Upper, members) => 0xFFFFu16 << (15 - members),
    })
}

// Bit n is set where a change of the layout resets channel n: of a zone that is announced, or of the whole layout where none is. No channel is in both
// zones of a layout.
fn reset(announced: Option<MpeZone>, before: MpeLayout, after: MpeLayout) -> Result<u16, OutOfRange>
    ensures { answered result ≡ of_legal before (of_legal after (given (mask_to (hit_by announced before after) 16))) }
{
    let a = zone_mask(before, MpeZone::Lower)?;
    let b = zone_mask(before, MpeZone::Upper)?;
    let c = zone_mask(after, MpeZone::Lower)?;
    let d = zone_mask(after, MpeZone::Upper)?;
    Ok(match announced {
        Some(MpeZone::Lower) => a | c | (b ^ d),
        Some(MpeZone::Upper) => b | d | (a ^ c),
        None => a | b | c | d,
    })
}

// A zone announcement resets every channel whose role changes or that is in the named zone before or after.
pub fn announcement_reset(
    before: MpeLayout,
    after: MpeLayout,
    zone: MpeZone,
) -> Result<u16, OutOfRange>
    ensures { answered result ≡ of_legal before (of_legal after (given (announcement_mask before after zone))) }
{
    reset(Some(zone), before, after)
}

// A layout that is set resets every channel with a role before or after.
pub fn layout_reset(before: MpeLayout, after: MpeLayout) -> Result<u16, OutOfRange>
    ensures { answered result ≡ of_legal before (of_legal after (given (layout_mask before after))) }
{
    reset(None, before, after)
}

// The mask names the channel.
pub fn names(mask: u16, channel: u8) -> bool
    ensures is { result ≡ named mask channel }
    ensures hit { NamesHit mask channel result }
{
    ((mask >> (channel % 16)) & 1) == 1
}
