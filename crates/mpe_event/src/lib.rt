// What a message does to the zones of an MPE receiver, and its event (mpe.rs).
#![tactic(auto)]

ghost use Rattle.std.specs.Prelude.{◌≡◌};
ghost use Rattle.ump.specs.Outcome.{answered};
ghost use Rattle.ump.specs.Word.{opcode_of, channel_of, first_of};
ghost use Rattle.mpe_event.specs.Update.{decoded, zones_update, announced, configured, announced_on, sensitivity_update, is_lowest_in, on_member, plain_event, mode_set, word_update, zones_reply, zones_after, reset_in};
ghost use Rattle.mpe_zones.specs.Zones.{mono_of};
ghost use Rattle.mpe_event.specs.Claims.{ReceiverCases};

use mpe_layout::{MpeRole, MpeZone};
use mpe_zones::{Zones, ZonesLayoutSet};
use parameter_event::{Parameter, ParameterChange, ParameterEvent};
use ump::channel_voice1::{channel, first_data, is_message, opcode};
use ump::controller::Rpn;
use ump::reply::OutOfRange;

// What one message gives.
#[derive(Clone, Copy, Debug, PartialEq, Eq)]
pub enum MpeEvent {
    // The channel is in no zone: a conventional MIDI 1.0 message.
    NoZone,
    // A message on a channel of a zone.
    Zone { zone: MpeZone, manager: bool },
    // An announcement changed the layout; bit n of `reset` is channel n.
    Layout { reset: u16 },
    // RPN 0 changed the manager's or the members' sensitivity.
    Sensitivity { zone: MpeZone, manager: bool },
    // The mode of a zone changed.
    Mode { zone: MpeZone },
    // A message that MPE prohibits, or that has no function here.
    Ignored,
}

// What a parameter event is to the receiver.
#[derive(Clone, Copy)]
enum Decoded {
    Nothing,
    // RPN 6, the MPE Configuration Message.
    Configuration(ParameterChange),
    // RPN 0.
    BendSensitivity(ParameterChange),
}

// The zones after a message, and its event.
#[derive(Clone, Copy, Debug, PartialEq, Eq)]
pub struct ZonesUpdate {
    pub zones: Zones,
    pub event: MpeEvent,
}

// What `receive` gives.
#[derive(Clone, Copy, Debug, PartialEq, Eq)]
pub struct ZonesReceived {
    pub zones: Zones,
    pub reply: Result<MpeEvent, OutOfRange>,
}

// What an event is with a message of this opcode: it is used with a control change alone.
fn decode(opcode: u8, event: Option<ParameterEvent>) -> Decoded
    ensures { result ≡ decoded opcode event }
{
    let Some(ParameterEvent { parameter, change }) = event else {
        return Decoded::Nothing;
    };
    match (opcode, parameter) {
        (0xB, Parameter::Registered(Rpn::PitchBendSensitivity)) => Decoded::BendSensitivity(change),
        (0xB, Parameter::Registered(Rpn::Other { msb: 0, lsb: 6 })) => {
            Decoded::Configuration(change)
        }
        _ => Decoded::Nothing,
    }
}

// Channel 0 announces Lower, and channel 15 Upper.
fn announced_on(channel: u8) -> Option<MpeZone>
    ensures { result ≡ announced_on channel }
{
    match channel {
        0 => Some(MpeZone::Lower),
        15 => Some(MpeZone::Upper),
        _ => None,
    }
}

// The channels that an event resets.
pub fn reset_in(event: MpeEvent) -> u16
    ensures { result ≡ reset_in event }
{
    match event {
        MpeEvent::Layout { reset } => reset,
        _ => 0,
    }
}

// A zone announcement.
fn announce(zones: Zones, zone: MpeZone, members: u8) -> ZonesUpdate
    ensures { result ≡ announced zones zone members }
{
    let ZonesLayoutSet { zones, reply } = zones.announce(zone, members);
    let event = match reply {
        Ok(reset) => MpeEvent::Layout { reset },
        Err(OutOfRange) => MpeEvent::Ignored,
    };
    ZonesUpdate { zones, event }
}

// An MPE Configuration Message.
fn mcm(zones: Zones, channel: u8, change: ParameterChange) -> ZonesUpdate
    ensures { result ≡ configured zones channel change }
{
    match (announced_on(channel), change) {
        (Some(zone), ParameterChange::DataEntryMsb(members)) => announce(zones, zone, members),
        _ => ZonesUpdate {
            zones,
            event: MpeEvent::Ignored,
        },
    }
}

// RPN 0: the manager's or the members' sensitivity in a zone.
fn sensitivity_update(zones: Zones, role: MpeRole, change: ParameterChange) -> ZonesUpdate
    ensures { result ≡ sensitivity_update zones role change }
{
    let (zone, manager) = match role {
        MpeRole::NoZone => {
            return ZonesUpdate {
                zones,
                event: MpeEvent::NoZone,
            };
        }
        MpeRole::Manager(zone) => (zone, true),
        MpeRole::Member(zone) => (zone, false),
    };
    ZonesUpdate {
        zones: zones.change_sensitivity(zone, manager, change),
        event: MpeEvent::Sensitivity { zone, manager },
    }
}

// The channel is the zone's lowest member.
fn is_lowest_in(zones: Zones, zone: MpeZone, channel: u8) -> bool
    ensures { result ≡ is_lowest_in zones zone channel }
{
    zones
        .layout
        .lowest_member(zone)
        .is_ok_and(|lowest| channel == lowest)
}

// A message on a member. Poly pressure is prohibited, program change and bank select are for mode 4 (mono), and controllers 126 and 127 set the mode on the
// lowest member.
#[tactic(auto, unfolding(crate::specs::Update::on_member))]
fn event_on_member(zones: Zones, zone: MpeZone, word: u32) -> MpeEvent
    ensures { result ≡ on_member zone (mono_of zones zone) (is_lowest_in zones zone (channel_of word)) (opcode_of word) (first_of word) }
{
    match (opcode(word), first_data(word)) {
        (0xA, _) => MpeEvent::Ignored,
        (0xC, _) | (0xB, 0 | 32) if !zones.is_mono(zone) => MpeEvent::Ignored,
        (0xB, 126 | 127) if is_lowest_in(zones, zone, channel(word)) => MpeEvent::Mode { zone },
        _ => MpeEvent::Zone {
            zone,
            manager: false,
        },
    }
}

// A message by its channel's role, where no parameter event decides.
fn event_by_role(zones: Zones, role: MpeRole, word: u32) -> MpeEvent
    ensures { result ≡ plain_event zones (channel_of word) role (opcode_of word) (first_of word) }
{
    match role {
        MpeRole::NoZone => MpeEvent::NoZone,
        MpeRole::Manager(zone) => MpeEvent::Zone {
            zone,
            manager: true,
        },
        MpeRole::Member(zone) => event_on_member(zones, zone, word),
    }
}

// The zones after a message that no parameter event decides.
fn plain_update(zones: Zones, event: MpeEvent, first: u8) -> ZonesUpdate
    ensures { result ≡ zones_update (mode_set zones event first) event }
{
    let zones = match event {
        MpeEvent::Mode { zone } => zones.with_mono(zone, first == 126),
        _ => zones,
    };
    ZonesUpdate { zones, event }
}

// The zones after a message, with the event that its channel's parameters gave for it.
fn update(zones: Zones, parameter: Option<ParameterEvent>, word: u32) -> ZonesUpdate
    ensures { result ≡ word_update zones parameter word }
{
    let role = zones.role(channel(word));
    match decode(opcode(word), parameter) {
        Decoded::Configuration(change) => mcm(zones, channel(word), change),
        Decoded::BendSensitivity(change) => sensitivity_update(zones, role, change),
        Decoded::Nothing => {
            let event = event_by_role(zones, role, word);
            plain_update(zones, event, first_data(word))
        }
    }
}

// One message, with the event that its channel's parameters gave for it. A word that is no message is out of range.
#[tactic(auto, using(crate::proofs::Cases::receiver_cases))]
pub fn receive(zones: Zones, word: u32, parameter: Option<ParameterEvent>) -> ZonesReceived
    ensures reply { answered result.reply ≡ zones_reply zones word parameter }
    ensures zones { result.zones ≡ zones_after zones word parameter }
    ensures cases { ReceiverCases }
{
    if !is_message(word) {
        return ZonesReceived {
            zones,
            reply: Err(OutOfRange),
        };
    }
    let ZonesUpdate { zones, event } = update(zones, parameter, word);
    ZonesReceived {
        zones,
        reply: Ok(event),
    }
}
