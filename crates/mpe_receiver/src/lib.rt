// The MPE receiver of one MIDI 1.0 input (mpe.rs).
#![tactic(auto)]

ghost use Rattle.std.specs.Prelude.{◌≡◌, ◌<◌, ℤ};
ghost use Rattle.ump.specs.Outcome.{given, answered, found};
ghost use Rattle.mpe_pitch.specs.Claims.{Within};
ghost use Rattle.mpe_event.specs.Update.{reset_in};
ghost use Rattle.mpe_receiver.specs.State.{new_receiver, zones_of, with_zones};
ghost use Rattle.mpe_receiver.specs.Receive.{stored, rest_upto, receiver_reply, receiver_after, set_reply, set_state, settled};
ghost use Rattle.mpe_receiver.specs.Read.{mode_of, sensitivity_of, bend_at, pressure_at, brightness_at, offset_of, manager_pair, member_pair, pair_of};
ghost use Rattle.mpe_receiver.specs.Claims.{ControlsStored, MaskRests, ByZones};
ghost use Rattle.mpe_receiver.specs.Ratio.{RatioByRole};
ghost use Rattle.mpe_receiver.specs.Bench.{TableHolds};

use mpe_event::{MpeEvent, ZonesReceived, receive, reset_in};
use mpe_layout::{MpeLayout, MpeRole, MpeZone};
use mpe_pitch::{MpeSensitivity, OffsetWithRemainder, pitch_offset_with_remainder};
use mpe_reset::names;
use mpe_zones::{Zones, ZonesLayoutSet};
use parameter_event::ParameterEvent;
use ump::channel_voice1::{channel, first_data, opcode, second_data};
use ump::reply::OutOfRange;

// The layout, the mode and the two sensitivities of each zone, and the last bend, pressure and brightness of each channel.
#[repr(C)]
#[derive(Clone, Copy, Debug, PartialEq, Eq)]
pub struct MpeReceiver {
    pub layout: MpeLayout,
    // Mode 4.
    pub lower_mono: bool,
    pub upper_mono: bool,
    // Semitones and cents: Lower's manager and members, then Upper's. Eight flat bytes, and no array of pairs: a part of End, which is lent to firmware
    // (bench_lent_c), byte for byte.
    pub sensitivity: [u8; 8],
    pub pitch_bend: [u16; 16],
    pub pressure: [u8; 16],
    pub brightness: [u8; 16],
}

// What `receive` gives.
#[derive(Clone, Copy, Debug, PartialEq, Eq)]
pub struct Received {
    pub receiver: MpeReceiver,
    pub reply: Result<MpeEvent, OutOfRange>,
}

// What `set_layout` gives.
#[derive(Clone, Copy, Debug, PartialEq, Eq)]
pub struct LayoutSet {
    pub receiver: MpeReceiver,
    pub reply: Result<u16, OutOfRange>,
}

impl MpeReceiver {
    // No zone, mode 3, and the controls of each channel at rest.
    #[tactic(auto, using(crate::proofs::Bench::table_holds, crate::proofs::Stored::controls_stored))]
    pub fn new() -> MpeReceiver
        ensures is { result ≡ new_receiver }
        ensures table { TableHolds }
        ensures controls { ControlsStored }
    {
        MpeReceiver {
            layout: MpeLayout::NONE,
            lower_mono: false,
            upper_mono: false,
            sensitivity: [0; 8],
            pitch_bend: [0x2000; 16],
            pressure: [0; 16],
            brightness: [64; 16],
        }
    }

    // Stores bend, pressure or brightness, whatever the channel's role.
    #[tactic(auto, unfolding(crate::specs::Receive::stored))]
    fn store(mut self, opcode: u8, channel: u8, first: u8, second: u8) -> MpeReceiver
        requires { channel < 16 }
        ensures { result ≡ stored self opcode channel first second }
    {
        let i = channel as usize;
        match (opcode, first) {
            (0xE, _) => self.pitch_bend[i] = second as u16 * 128 + first as u16,
            (0xD, _) => self.pressure[i] = first,
            (0xB, 74) => self.brightness[i] = second,
            (0xB, 121) => {
                self.pitch_bend[i] = 0x2000;
                self.pressure[i] = 0;
            }
            _ => {}
        }
        self
    }

    // Every channel in the mask is put to rest.
    fn rest(mut self, mask: u16) -> MpeReceiver
        ensures { result ≡ rest_upto self mask 16 }
    {
        for channel in 0..16 {
            if names(mask, channel) {
                let i = channel as usize;
                self.pitch_bend[i] = 0x2000;
                self.pressure[i] = 0;
                self.brightness[i] = 64;
            }
        }
        self
    }

    // The channels that an event resets are put to rest.
    #[tactic(auto, using(crate::proofs::Parts::rest_none))]
    fn rest_by(self, event: MpeEvent) -> MpeReceiver
        ensures { result ≡ rest_upto self (reset_in event) 16 }
    {
        let mask = reset_in(event);
        if mask == 0 { self } else { self.rest(mask) }
    }

    // The zones.
    fn zones(self) -> Zones
        ensures { result ≡ zones_of self }
    {
        let MpeReceiver {
            layout,
            lower_mono,
            upper_mono,
            sensitivity,
            ..
        } = self;
        Zones {
            layout,
            lower_mono,
            upper_mono,
            sensitivity,
        }
    }

    fn with_zones(self, zones: Zones) -> MpeReceiver
        ensures { result ≡ with_zones self zones }
    {
        let Zones {
            layout,
            lower_mono,
            upper_mono,
            sensitivity,
        } = zones;
        MpeReceiver {
            layout,
            lower_mono,
            upper_mono,
            sensitivity,
            ..self
        }
    }

    // A message is stored, the zones become these, and the channels that its event resets are put to rest.
    fn settle(self, zones: Zones, word: u32, event: MpeEvent) -> MpeReceiver
        ensures { result ≡ settled self zones word event }
    {
        let stored = self.store(
            opcode(word),
            channel(word),
            first_data(word),
            second_data(word),
        );
        stored.with_zones(zones).rest_by(event)
    }

    // One message, with the event that its channel's parameters gave for it. A word that is no message is out of range.
    #[tactic(auto, unfolding(crate::specs::Receive::received_by_fields))]
    pub fn receive(self, word: u32, parameter: Option<ParameterEvent>) -> Received
        ensures reply { answered result.reply ≡ receiver_reply self word parameter }
        ensures state { result.receiver ≡ receiver_after self word parameter }
    {
        let ZonesReceived { zones, reply } = receive(self.zones(), word, parameter);
        match reply {
            Ok(event) => Received {
                receiver: self.settle(zones, word, event),
                reply,
            },
            Err(_) => Received {
                receiver: self,
                reply,
            },
        }
    }

    // A layout that the application sets. An illegal one is out of range.
    #[tactic(auto, using(crate::proofs::Resets::mask_rests, crate::proofs::Resets::by_zones))]
    pub fn set_layout(self, layout: MpeLayout) -> LayoutSet
        ensures reply { answered result.reply ≡ set_reply self layout }
        ensures state { result.receiver ≡ set_state self layout }
        ensures rests { MaskRests × ByZones }
    {
        let ZonesLayoutSet { zones, reply } = self.zones().set_layout(layout);
        match reply {
            Ok(mask) => LayoutSet {
                receiver: self.with_zones(zones).rest(mask),
                reply,
            },
            Err(_) => LayoutSet {
                receiver: self,
                reply,
            },
        }
    }

    // The layout.
    pub fn layout(self) -> MpeLayout
        ensures { result ≡ self.layout }
    {
        self.layout
    }

    // The mode of a zone: 4 (mono) or 3 (poly).
    pub fn mode(self, zone: MpeZone) -> u8
        ensures { result ≡ mode_of self zone }
    {
        if self.zones().is_mono(zone) { 4 } else { 3 }
    }

    // The manager's or the members' sensitivity of a zone.
    pub fn sensitivity(self, zone: MpeZone, manager: bool) -> MpeSensitivity
        ensures { result ≡ sensitivity_of self zone manager }
    {
        self.zones().sensitivity(zone, manager)
    }

    // The last bend of a channel.
    pub fn pitch_bend(self, channel: u8) -> u16
        ensures { result ≡ bend_at self channel }
    {
        self.pitch_bend[(channel % 16) as usize]
    }

    // The last pressure of a channel.
    pub fn pressure(self, channel: u8) -> u8
        ensures { result ≡ pressure_at self channel }
    {
        self.pressure[(channel % 16) as usize]
    }

    // The last brightness (controller 74) of a channel.
    pub fn brightness(self, channel: u8) -> u8
        ensures { result ≡ brightness_at self channel }
    {
        self.brightness[(channel % 16) as usize]
    }

    #[tactic(auto, unfolding(crate::specs::Read::manager_pair))]
    fn manager_pair(self, zone: MpeZone) -> OffsetWithRemainder
        ensures { result ≡ manager_pair self zone }
    {
        pitch_offset_with_remainder(
            self.pitch_bend(zone.manager()),
            self.sensitivity(zone, true),
        )
    }

    fn member_pair(self, zone: MpeZone, channel: u8) -> OffsetWithRemainder
        ensures { result ≡ member_pair self zone channel }
    {
        let manager = self.manager_pair(zone);
        let own = pitch_offset_with_remainder(
            self.pitch_bend(channel),
            self.sensitivity(zone, false),
        );
        OffsetWithRemainder {
            offset: manager.offset + own.offset,
            remainder: manager.remainder + own.remainder,
        }
    }

    // The offset of a channel with its remainder: a manager's are its own, a member's are added to its manager's.
    #[tactic(auto, using(crate::proofs::Ratio::ratio_of))]
    pub fn pitch_offset_with_remainder(self, channel: u8) -> Option<OffsetWithRemainder>
        ensures is { found result ≡ pair_of self channel }
        ensures ratio { RatioByRole self channel (found result) }
    {
        match self.zones().role(channel) {
            MpeRole::NoZone => None,
            MpeRole::Manager(zone) => Some(self.manager_pair(zone)),
            MpeRole::Member(zone) => Some(self.member_pair(zone, channel)),
        }
    }

    // The offset of a channel in hundredths of a cent: a member's is added to its manager's.
    #[tactic(auto, using(crate::proofs::Range::ranges))]
    pub fn pitch_offset(self, channel: u8) -> Option<i32>
        ensures is { found result ≡ offset_of self channel }
        ensures within { (z : ℤ) → found result ≡ given z → Within 2565714 2565400 z }
    {
        self.pitch_offset_with_remainder(channel)
            .map(|pair| pair.offset)
    }
}
