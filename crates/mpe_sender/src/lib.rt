// The sending side of MPE (mpe.rs): the writers of a sender.
#![tactic(auto)]

ghost use Rattle.std.specs.Prelude.{◌≡◌};
ghost use Rattle.ump.specs.Outcome.{answered};
ghost use Rattle.mpe_sender.specs.Writers.{rpn_messages, mcm_messages, sensitivity_allowed, sensitivity_messages, zone_for, zone_found, mode_message, channel_messages, note_messages};
ghost use Rattle.mpe_sender.specs.Claims.{AllowedWithin, SentEntered};

use mpe_layout::{MpeLayout, MpeZone};
use mpe_pitch::MpeSensitivity;
use parameter_event::{Parameter, ParameterChange};
use parameter_messages::{change_message, select_messages, value_messages};
use ump::channel_voice1::{Midi1ChannelPressure, Midi1NoteOn, Midi1PitchBend, control_change};
use ump::controller::Rpn;
use ump::packet::{Channel, Group, PacketNumber};
use ump::reply::OutOfRange;

// RPN `rpn` with Data Entry MSB and no LSB: controllers 101, 100 and 6.
fn rpn_messages(channel: u8, rpn: Rpn, value: u8) -> Result<[u32; 3], OutOfRange>
    ensures { answered result ≡ rpn_messages channel rpn value }
{
    let [a, b] = select_messages(channel, Parameter::Registered(rpn))?;
    let c = change_message(channel, ParameterChange::DataEntryMsb(value))?;
    Ok([a, b, c])
}

// The MPE Configuration Message of a zone: RPN 0 6 on its manager. Members above 15 are out of range.
#[tactic(auto, unfolding(crate::specs::Writers::mcm_messages, ump::specs::Word::two_data_word))]
pub fn mcm_messages(zone: MpeZone, members: u8) -> Result<[u32; 3], OutOfRange>
    ensures { answered result ≡ mcm_messages zone members }
{
    if 15 < members {
        return Err(OutOfRange);
    }
    rpn_messages(zone.manager(), Rpn::Other { msb: 0, lsb: 6 }, members)
}

// A sensitivity that may be sent: at most 96 semitones and at most 99 cents.
#[tactic(auto, unfolding(crate::specs::Writers::sensitivity_allowed))]
pub fn sensitivity_allowed(sensitivity: MpeSensitivity) -> bool
    ensures is { result ≡ sensitivity_allowed sensitivity }
    ensures limits { AllowedWithin sensitivity result }
{
    sensitivity.semitones <= 96 && sensitivity.cents <= 99
}

// The Pitch Bend Sensitivity of a channel: RPN 0, its semitones and then its cents. Semitones above 96 or cents above 99 are out of range.
pub fn sensitivity_messages(channel: u8, semitones: u8, cents: u8) -> Result<[u32; 4], OutOfRange>
    ensures words { answered result ≡ sensitivity_messages channel (record { semitones = semitones; cents = cents }) }
    ensures entered { SentEntered (answered result) channel semitones cents }
{
    if !sensitivity_allowed(MpeSensitivity { semitones, cents }) {
        return Err(OutOfRange);
    }
    value_messages(
        channel,
        Parameter::Registered(Rpn::PitchBendSensitivity),
        semitones as u16 * 128 + cents as u16,
    )
}

// The lowest member and the member count of an active zone.
#[derive(Clone, Copy, Debug, PartialEq, Eq)]
pub struct ActiveZone {
    pub lowest: u8,
    pub members: u8,
}

// What the writers of a zone take from a layout. An inactive zone is out of range.
pub fn active_zone(layout: MpeLayout, zone: MpeZone) -> Result<ActiveZone, OutOfRange>
    ensures { zone_found result ≡ zone_for layout zone }
{
    let lowest = layout.lowest_member(zone).map_err(|_| OutOfRange)?;
    let members = layout.members(zone)?;
    Ok(ActiveZone { lowest, members })
}

// The mode message of a zone on its lowest member: Mono Mode On with the member count, or Poly Mode On with 0. An inactive zone is out of range.
#[tactic(auto, unfolding(crate::specs::Writers::mode_on))]
pub fn mode_message(layout: MpeLayout, zone: MpeZone, mono: bool) -> Result<u32, OutOfRange>
    ensures { answered result ≡ mode_message layout zone mono }
{
    let ActiveZone { lowest, members } = active_zone(layout, zone)?;
    if mono {
        control_change(lowest, 126, members)
    } else {
        control_change(lowest, 127, 0)
    }
}

// The controls of a channel: Pitch Bend, controller 74 and Channel Pressure, with Group 0.
pub fn channel_messages(
    channel: u8,
    pitch_bend: u16,
    brightness: u8,
    pressure: u8,
) -> Result<[u32; 3], OutOfRange>
    ensures { answered result ≡ channel_messages channel pitch_bend brightness pressure }
{
    let group = Group::from_bits(0);
    let on = Channel::from_bits(channel);
    Ok([
        Midi1PitchBend::try_new(group, on, pitch_bend)?,
        control_change(channel, 74, brightness)?,
        Midi1ChannelPressure::try_new(group, on, pressure)?,
    ])
}

// The start of a note: Pitch Bend, controller 74, Channel Pressure, Note On. A value out of range or velocity 0 is out of range.
#[tactic(auto, unfolding(crate::specs::Writers::note_messages))]
pub fn note_messages(
    channel: u8,
    note: u8,
    velocity: u8,
    pitch_bend: u16,
    brightness: u8,
    pressure: u8,
) -> Result<[u32; 4], OutOfRange>
    ensures { answered result ≡ note_messages channel note velocity pitch_bend brightness pressure }
{
    if velocity == 0 {
        return Err(OutOfRange);
    }
    let [a, b, c] = channel_messages(channel, pitch_bend, brightness, pressure)?;
    let group = Group::from_bits(0);
    let d = Midi1NoteOn::try_new(group, Channel::from_bits(channel), note, velocity)?;
    Ok([a, b, c, d])
}
