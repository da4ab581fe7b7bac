// What a writer of a restatement answers: which settings are allowed, and how many messages and bytes it needs (document 01, "Restatement").
#![tactic(auto)]

ghost use Rattle.std.specs.Prelude.{◌≡◌};
ghost use Rattle.zone_sender.specs.Zone.{written_read};
ghost use Rattle.settings.specs.Settings.{zone_allowed, channel_allowed, channels_allowed, allowed};
ghost use Rattle.settings.specs.Limits.{AnsweredWithin};
ghost use Rattle.settings.specs.Messages.{one_if_any, message_count, byte_count, restated_reply};

use mpe_layout::MpeLayout;
use mpe_sender::sensitivity_allowed;
use settings::{Settings, ZoneSettings};
use zone_sender::WriteError;

// The fields of a zone with so many members are inside their limits, or are not read.
#[tactic(auto, unfolding(settings::specs::Settings::zone_allowed))]
pub fn zone_allowed(members: u8, zone: ZoneSettings) -> bool
    ensures { result ≡ zone_allowed members zone }
{
    members == 0
        || sensitivity_allowed(zone.manager)
            && sensitivity_allowed(zone.member)
            && matches!(zone.mode, 3 | 4)
}

// The fields of a channel are inside their limits.
#[tactic(auto, unfolding(settings::specs::Settings::channel_allowed))]
fn channel_allowed(bend: u16, pressure: u8, brightness: u8) -> bool
    ensures { result ≡ channel_allowed bend pressure brightness }
{
    bend <= 0x3FFF && pressure <= 127 && brightness <= 127
}

#[tactic(auto, unfolding(settings::specs::Settings::channels_allowed))]
fn channels_allowed(settings: Settings) -> bool
    ensures { result ≡ channels_allowed settings 16 }
{
    for k in 0..16 {
        if !channel_allowed(
            settings.pitch_bend[k],
            settings.pressure[k],
            settings.brightness[k],
        ) {
            return false;
        }
    }
    true
}

// The layout is legal, and every field that is read is inside its limits.
#[tactic(auto, unfolding(settings::specs::Settings::allowed))]
pub fn is_allowed(settings: Settings) -> bool
    ensures { result ≡ allowed settings }
{
    let layout = settings.layout;
    layout.is_layout()
        && zone_allowed(layout.lower, settings.lower)
        && zone_allowed(layout.upper, settings.upper)
        && channels_allowed(settings)
}

// 1 for a zone with members.
fn one_if_any(members: u8) -> usize
    ensures { result ≡ one_if_any members }
{
    if members == 0 { 0 } else { 1 }
}

// How many messages a restatement has.
#[tactic(auto, unfolding(settings::specs::Messages::message_count))]
fn message_count(layout: MpeLayout) -> usize
    ensures { result ≡ message_count layout }
{
    let zones = one_if_any(layout.lower) + one_if_any(layout.upper);
    let members = layout.lower as usize + layout.upper as usize;
    108 + 5 * zones + 4 * members
}

// How many bytes it has: three a message, less one for each channel's pressure.
#[tactic(auto, using(settings::proofs::Counts::one_le), unfolding(settings::specs::Messages::message_count, settings::specs::Messages::byte_count))]
fn byte_count(layout: MpeLayout) -> usize
    ensures { result ≡ byte_count layout }
{
    3 * message_count(layout) - 16
}

// What a writer answers that needs so many elements: settings outside their limits are out of range; then a short buffer is too small.
#[tactic(auto, unfolding(settings::specs::Messages::restated_reply))]
fn restated_reply(settings: Settings, needed: usize, got: usize) -> Result<usize, WriteError>
    ensures { written_read result ≡ restated_reply settings needed got }
{
    if !is_allowed(settings) {
        return Err(WriteError::OutOfRange);
    }
    if got < needed {
        return Err(WriteError::TooSmall { needed, got });
    }
    Ok(needed)
}

// What the writer of words answers, for a buffer of so many words. What `limits` says is the same in the papers' words.
#[tactic(auto, using(settings::proofs::Limits::answered_within))]
pub fn words_reply(settings: Settings, got: usize) -> Result<usize, WriteError>
    ensures reply { written_read result ≡ restated_reply settings (message_count settings.layout) got }
    ensures limits { AnsweredWithin settings (message_count settings.layout) got (written_read result) }
{
    restated_reply(settings, message_count(settings.layout), got)
}

// What the writer of bytes answers, for a buffer of so many bytes.
#[tactic(auto, using(settings::proofs::Limits::answered_within))]
pub fn bytes_reply(settings: Settings, got: usize) -> Result<usize, WriteError>
    ensures reply { written_read result ≡ restated_reply settings (byte_count settings.layout) got }
    ensures limits { AnsweredWithin settings (byte_count settings.layout) got (written_read result) }
{
    restated_reply(settings, byte_count(settings.layout), got)
}
